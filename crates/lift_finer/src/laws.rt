//! Laws of finer grids, for who reasons about them. The functions do nothing.

ghost use Rattle.lift_finer.specs.Laws.{
  AcceptingStays,
  AdmittedRowsStay,
  GreatestLowersStay,
  HalvesStay,
  LeadsStay,
  LeastMeansStay,
  LeastUppersStay,
  LowersStay,
  MostMeansStay,
  NoneAcceptsStays,
  ParametersStay,
  RatesStay,
  RefinedBasesAreCertified,
  RegionsAreFiner,
  RejectingStays,
  SharesStay,
  SplitAxesStay,
  StagesStay,
  SumsAreHomogeneous,
  UppersStay,
  WeightsAreHomogeneous,
  WholesAreHomogeneous,
};

/// Over a grid `n` times as fine a row's weights at corners, their sums and the whole are `n` times as large
/// for each parameter of the row. So what is said by them stays as it is.
pub fn weights_are_homogeneous()
    ensures parameters { ParametersStay }
    ensures weights { WeightsAreHomogeneous }
    ensures sums { SumsAreHomogeneous }
    ensures wholes { WholesAreHomogeneous }
    ensures most { MostMeansStay }
    ensures least { LeastMeansStay }
    ensures shares { SharesStay }
    ensures rates { RatesStay }
    ensures leads { LeadsStay }
{}

/// A row that is admitted stays so over a finer grid, but that it may be too wide there.
pub fn admitted_rows_stay()
    ensures { AdmittedRowsStay }
{}

/// The regions that a text names at two depths are one region, over two grids.
pub fn regions_are_finer()
    ensures { RegionsAreFiner }
{}

/// A finer grid leaves the upper and the lower vectors of a rectangle as they are, and with them the least
/// and the greatest.
pub fn vectors_stay()
    ensures uppers { UppersStay }
    ensures least { LeastUppersStay }
    ensures lowers { LowersStay }
    ensures stages { StagesStay }
    ensures greatest { GreatestLowersStay }
{}

/// A finer grid leaves the certificates of a rectangle as they are, and whether there are any.
pub fn certificates_stay()
    ensures accepting { AcceptingStays }
    ensures rejecting { RejectingStays }
    ensures none { NoneAcceptsStays }
{}

/// A finer grid leaves the axis of the split rule as it is, and the halves.
pub fn halves_stay()
    ensures axes { SplitAxesStay }
    ensures halves { HalvesStay }
{}

/// A base with certified trees in the place of its unknown leaves is certified, whether it is right or not.
pub fn refined_bases_are_certified()
    ensures { RefinedBasesAreCertified }
{}
