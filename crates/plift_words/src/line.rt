// The words of the command line.
ghost use Rattle.std.specs.Prelude.{◌≡◌, ◌&&◌, ◌||◌, ◌<◌, ◌≤◌, ◌∷◌, [], None, length, map, not};
ghost use Rattle.std.specs.Prelude.{string_bytes, IfSome, MatchOption};
ghost use Rattle.std.specs.List.{list_all};
ghost use Rattle.std.specs.Option.{option_map};
ghost use Rattle.lift_bytes.specs.Bytes.{code};
ghost use Rattle.lift_frac.specs.Written.{cut_at};
ghost use Rattle.plift_words.specs.Line.{attached, options, stands, is_among, is_value, are_options, is_command};
ghost use Rattle.plift_words.specs.Line.{is_verify, is_bounded, is_lumped, is_property, is_cost, is_asking};
ghost use Rattle.plift_words.specs.Line.{is_alone, is_check, is_migrate, word_behind, only, depth_in, depth_behind};
ghost use Rattle.plift_words.specs.Given.{setting_of, must_of, may_of};

use lift_frac::cut_at;

/// The options that may stand behind each command that asks.
const COMMON_OPTIONS: [&str; 3] = ["--region", "--depth", "--precision"];

/// Those that may stand where a range of precisions may be asked for.
const RANGE_OPTIONS: [&str; 4] = ["--from", "--region", "--depth", "--precision"];

/// An option as it stands in a line.
#[derive(Clone, Copy)]
struct Setting<'a> {
    name: &'a str,
    value: Option<&'a str>,
}

// The value behind `=` in one word.
fn attached(text: &str) -> Option<&str>
    ensures { option_map (λ value. value.now) result ≡ attached text.now }
{
    if text.is_empty() { None } else { Some(text) }
}

// An option of two words: a name, and the value at the front of the words behind it.
fn in_two_words<'a>(name: &'a str, words: &'a [String]) -> (Setting<'a>, &'a [String])
    requires { cut_at (code "=") name.now ≡ None }
    ensures option { options (name.now ∷ map string_bytes words.now)
        ≡ setting_of result.0 ∷ options (map string_bytes result.1.now) }
    ensures shorter { length result.1.now ≤ length words.now }
{
    match words {
        [value, rest @ ..] => (
            Setting {
                name,
                value: Some(value.as_str()),
            },
            rest,
        ),
        [] => (Setting { name, value: None }, words),
    }
}

// The option at the front, and the words behind it.
fn first_option(words: &[String]) -> Option<(Setting<'_>, &[String])>
    ensures option { MatchOption result (map string_bytes words.now ≡ [])
        (λ first. options (map string_bytes words.now)
        ≡ setting_of first.0 ∷ options (map string_bytes first.1.now)) }
    ensures shorter { IfSome result (λ first. length first.1.now < length words.now) }
{
    let [word, rest @ ..] = words else {
        return None;
    };
    match cut_at(word.as_str(), '=') {
        Some((name, value)) => Some((
            Setting {
                name,
                value: attached(value),
            },
            rest,
        )),
        None => Some(in_two_words(word.as_str(), rest)),
    }
}

// Whether an option of this name stands there.
fn stands(name: &str, words: &[String]) -> bool
    ensures { result ≡ stands name.now (options (map string_bytes words.now)) }
{
    let mut rest = words;
    while let Some((setting, more)) = first_option(rest) {
        if setting.name == name {
            return true;
        }
        rest = more;
    }
    false
}

// Whether it is one of these names.
fn is_among(names: &[&str], name: &str) -> bool
    ensures { result ≡ is_among (map (λ n. n.now) names.now) name.now }
{
    for known in names {
        if name == *known {
            return true;
        }
    }
    false
}

fn is_value(value: Option<&str>) -> bool
    ensures { result ≡ is_value (option_map (λ v. v.now) value.entry) }
{
    match value {
        Some(word) => !word.as_bytes().starts_with(b"-"),
        None => false,
    }
}

// What stands behind a command: the options that have to, and those that may.
#[derive(Clone, Copy)]
struct Form<'a> {
    must: &'a [&'a str],
    may: &'a [&'a str],
}

impl Form<'_> {
    // Whether it is one of these options with its value, which doesn't stand once more behind it.
    fn takes(&self, setting: Setting<'_>, more: &[String]) -> bool
        ensures { let s = setting_of setting.entry in
            result ≡ ((is_among (must_of self.now) s.name || is_among (may_of self.now) s.name) && is_value s.value
            && not (stands s.name (options (map string_bytes more.now)))) }
    {
        (is_among(self.must, setting.name) || is_among(self.may, setting.name))
            && is_value(setting.value)
            && !stands(setting.name, more)
    }

    // Whether the words are such options, with their values, each at most once.
    fn are_options(&self, words: &[String]) -> bool
        ensures { result ≡ are_options (must_of self.now) (may_of self.now) (options (map string_bytes words.now)) }
    {
        let mut rest = words;
        while let Some((setting, more)) = first_option(rest) {
            if !self.takes(setting, more) {
                return false;
            }
            rest = more;
        }
        true
    }

    // Whether each of those that have to stand there does.
    fn all_stand(&self, words: &[String]) -> bool
        ensures { result ≡ list_all (λ option. stands option (options (map string_bytes words.now))) (must_of self.now) }
    {
        for name in self.must {
            if !stands(name, words) {
                return false;
            }
        }
        true
    }

    // Whether the line is this command, and behind it such options.
    fn is_command(&self, name: &str, words: &[String]) -> bool
        ensures { result ≡ is_command name.now (must_of self.now) (may_of self.now) (map string_bytes words.now) }
    {
        let [command, options @ ..] = words else {
            return false;
        };
        command.as_str() == name && self.are_options(options) && self.all_stand(options)
    }
}

fn is_verify(words: &[String]) -> bool
    ensures { result ≡ is_verify (map string_bytes words.now) }
{
    let form = Form {
        must: &["--goal", "--bound"],
        may: &RANGE_OPTIONS,
    };
    form.is_command("verify", words)
}

fn is_bounded(words: &[String]) -> bool
    ensures { result ≡ is_bounded (map string_bytes words.now) }
{
    let form = Form {
        must: &["--goal", "--bound", "--steps"],
        may: &COMMON_OPTIONS,
    };
    form.is_command("bounded", words)
}

/// Whether the line is the command `lumped`, and behind it its options.
pub fn is_lumped(words: &[String]) -> bool
    ensures { result ≡ is_lumped (map string_bytes words.now) }
{
    let form = Form {
        must: &["--goal", "--bound"],
        may: &COMMON_OPTIONS,
    };
    form.is_command("lumped", words)
}

/// Whether the line is the command `property`, and behind it its options.
pub fn is_property(words: &[String]) -> bool
    ensures { result ≡ is_property (map string_bytes words.now) }
{
    let form = Form {
        must: &["--formula"],
        may: &RANGE_OPTIONS,
    };
    form.is_command("property", words)
}

/// Whether the line is the command `cost`, and behind it its options.
pub fn is_cost(words: &[String]) -> bool
    ensures { result ≡ is_cost (map string_bytes words.now) }
{
    let form = Form {
        must: &["--goal", "--reward", "--budget", "--cap"],
        may: &COMMON_OPTIONS,
    };
    form.is_command("cost", words)
}

/// Whether the line is the command `verify`, `bounded`, `lumped`, `property` or `cost`, and behind it its options with
/// their values, in any order and each at most once. Takes no memory.
pub fn is_asking(words: &[String]) -> bool
    ensures { result ≡ is_asking (map string_bytes words.now) }
{
    is_verify(words)
        || is_bounded(words)
        || is_lumped(words)
        || is_property(words)
        || is_cost(words)
}

// Whether the line is this command, and nothing behind it.
fn is_alone(name: &str, words: &[String]) -> bool
    ensures { result ≡ is_alone name.now (map string_bytes words.now) }
{
    match words {
        [command] => command.as_str() == name,
        _ => false,
    }
}

/// Whether the line is the command `check`, and nothing behind it.
pub fn is_check(words: &[String]) -> bool
    ensures { result ≡ is_check (map string_bytes words.now) }
{
    is_alone("check", words)
}

/// Whether the line is the command `migrate`, and nothing behind it.
pub fn is_migrate(words: &[String]) -> bool
    ensures { result ≡ is_migrate (map string_bytes words.now) }
{
    is_alone("migrate", words)
}

/// The one word behind this command, where it doesn't begin with `-`.
pub fn word_behind<'a>(name: &str, words: &'a [String]) -> Option<&'a str>
    ensures { option_map (λ word. word.now) result
        ≡ word_behind name.now (map string_bytes words.entry.now) }
{
    let [command, word] = words else {
        return None;
    };
    if command.as_str() == name && is_value(Some(word.as_str())) {
        Some(word.as_str())
    } else {
        None
    }
}

// The option that stands there alone.
fn only_option(words: &[String]) -> Option<Setting<'_>>
    ensures { option_map setting_of result ≡ only (options (map string_bytes words.entry.now)) }
{
    let (setting, more) = first_option(words)?;
    match first_option(more) {
        None => Some(setting),
        Some(_) => None,
    }
}

// The value of an option, where that is `--depth`.
fn depth_in(setting: Setting<'_>) -> Option<&str>
    ensures { option_map (λ word. word.now) result ≡ depth_in (setting_of setting.entry) }
{
    if setting.name == "--depth" && is_value(setting.value) {
        setting.value
    } else {
        None
    }
}

/// The value of the one option behind this command, where that is `--depth` and its value doesn't begin with `-`.
pub fn depth_behind<'a>(name: &str, words: &'a [String]) -> Option<&'a str>
    ensures { option_map (λ word. word.now) result
        ≡ depth_behind name.now (map string_bytes words.entry.now) }
{
    let [command, options @ ..] = words else {
        return None;
    };
    if command.as_str() == name {
        depth_in(only_option(options)?)
    } else {
        None
    }
}
