// The commands of a user's program.
ghost use Rattle.std.specs.Prelude.{◌≡◌, ◌≤◌, IfSome, length};
ghost use Rattle.user_line.specs.Line.{form_of, ids_of, least_of, required_of, further_of, name_of, texts_of};

/// A command of a user's program.
#[derive(Clone, Copy, Debug, PartialEq, Eq)]
pub enum Form {
    /// `show SERVICE`
    Show,
    /// `raf PORT NAME PASS INSTANCE START STOP QUALITY TURNS [REPORT]`
    Raf,
    /// `rcf PORT NAME PASS INSTANCE START STOP CHANNEL TURNS [REPORT]`
    Rcf,
    /// `cltu PORT NAME PASS INSTANCE FIRST TURNS [REPORT]`
    Cltu,
}

impl Form {
    // The command that has this name.
    pub(crate) fn of(word: &str) -> Option<Form>
        ensures exact { result ≡ form_of word.now }
        ensures named { IfSome result (λ form. word.now ≡ name_of form) }
    {
        match word {
            "show" => Some(Form::Show),
            "raf" => Some(Form::Raf),
            "rcf" => Some(Form::Rcf),
            "cltu" => Some(Form::Cltu),
            _ => None,
        }
    }

    // Its name.
    pub(crate) fn name<'a>(self) -> &'a str
        ensures { result.now ≡ name_of self }
    {
        match self {
            Form::Show => "show",
            Form::Raf => "raf",
            Form::Rcf => "rcf",
            Form::Cltu => "cltu",
        }
    }

    // How many of its words a line has at least.
    pub(crate) fn least(self) -> usize
        ensures { result ≡ least_of self }
    {
        match self {
            Form::Show => 1,
            Form::Raf | Form::Rcf => 8,
            Form::Cltu => 6,
        }
    }

    // The names of those.
    #[tactic(auto, using(crate::proofs::Values::texts_take))]
    pub(crate) fn required<'a>(self) -> &'a [&'a str]
        ensures { texts_of result.now ≡ required_of self }
    {
        &self.ids()[..self.least()]
    }

    // The name of the further one, where it has one.
    #[tactic(auto, using(crate::proofs::Values::texts_drop))]
    pub(crate) fn further<'a>(self) -> &'a [&'a str]
        ensures { texts_of result.now ≡ further_of self }
    {
        &self.ids()[self.least()..]
    }

    // The names of its words, in order, with the further one.
    pub(crate) fn ids<'a>(self) -> &'a [&'a str]
        ensures exact { texts_of result.now ≡ ids_of self }
        ensures enough { least_of self ≤ length result.now }
    {
        match self {
            Form::Show => &SHOW,
            Form::Raf => &RAF,
            Form::Rcf => &RCF,
            Form::Cltu => &CLTU,
        }
    }
}

static SHOW: [&str; 1] = ["SERVICE"];

static RAF: [&str; 9] = [
    "PORT", "NAME", "PASS", "INSTANCE", "START", "STOP", "QUALITY", "TURNS", "REPORT",
];

static RCF: [&str; 9] = [
    "PORT", "NAME", "PASS", "INSTANCE", "START", "STOP", "CHANNEL", "TURNS", "REPORT",
];

static CLTU: [&str; 7] = [
    "PORT", "NAME", "PASS", "INSTANCE", "FIRST", "TURNS", "REPORT",
];
