use lift_model::Model;

/// A collapsed model, and for each state of the whole one its place: the state of the collapsed model that
/// stands for it.
#[derive(Drop)]
pub(crate) struct Collapsed {
    pub(crate) model: Model,
    pub(crate) places: Vec<u32>,
}

impl std::marker::Model for Collapsed {
    ghost use Rattle.lift_collapse.specs.Collapse.{CollapseData};

    ghost Value = { CollapseData };

    ghost view = { λ c. record { model = c.model; places = c.places.items } };
}
