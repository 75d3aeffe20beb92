//! Where words stand in a line, and how each is written in the line's object.
ghost use Rattle.std.specs.Prelude.{◌≡◌};
ghost use Rattle.std.specs.Char.{is_ascii_digit};
ghost use Rattle.std.specs.List.{list_all};
ghost use Rattle.hp_objects.specs.Places.{closing, command, begins_with_digit, first_place, is_number, opening, place_at, writing_of};

/// Whose lines are written as objects.
#[derive(Clone, Copy, Debug, PartialEq, Eq)]
pub enum Output {
    Explore,
    Find,
    Schedule,
    Minimize,
    Race,
    Work,
    /// The trace of a workload.
    WorkTrace,
    Check,
    Audit,
}

/// What a word of a line is.
#[derive(Clone, Copy, Debug, PartialEq, Eq)]
pub enum Place {
    /// A first word that is a key.
    Pair,
    /// The first word of a run's line.
    RunLine,
    /// The first word of a line that counts runs or schedules by how they end.
    TableLine,
    /// The first word of a line on held-up tasks.
    HeldUpLine,
    /// The first word of a line on phases that met.
    MetLine,
    /// The first word of a line of several numbers.
    FactLine,
    /// The first word of a trace.
    PoolLine,
    /// The first word of a begin.
    BeginLine,
    /// The first word of another event of a task.
    EventLine,
    /// The first word of a resize.
    ResizeLine,
    /// The name of a workload.
    Workload,
    /// What has a finding.
    Finding,
    /// The key of a value.
    Key,
    /// The value of the key before it.
    Value,
    /// The number of a run.
    RunNumber,
    /// How the run ended.
    Ending,
    /// Where journal and histories differ.
    Position,
    /// The task that was held up.
    HeldUp,
    /// The first of two phases.
    Met,
    /// The second.
    With,
    /// In how many runs that was.
    Runs,
    /// How the workload ended.
    Worked,
    /// What parts the calls from what stands before.
    FirstCall,
    /// What parts a call from the one before.
    NextCall,
    /// The task of a call.
    Task,
    /// The call.
    Call,
    /// Its answer.
    Answer,
    /// The number of its answer.
    Number,
    /// The sizes of a pool.
    Frames,
    Files,
    Slots,
    Tasks,
    /// Its quota, if it has one.
    Quota,
    /// The task of a begin.
    BeginTask,
    /// The operation that begins.
    Operation,
    /// Its first number.
    Numbers,
    /// Its other numbers.
    More,
    /// The task of another event.
    EventTask,
    /// The frames that a resize asks for.
    NewFrames,
    /// The number of the line that has a finding.
    FindingLine,
    /// The first word of what is wrong.
    Wrong,
    /// The words behind it.
    MoreWrong,
}

/// How a word is written.
#[derive(Clone, Copy, Debug, PartialEq, Eq)]
pub enum Form {
    /// Not at all.
    Nothing,
    /// As it is, inside a string.
    Inside,
    /// As a string.
    Quoted,
    /// As a number if it is one, else as a string.
    Valued,
    /// Without its colon, as a string.
    Named,
    /// Without its colon, as a number.
    Numbered,
}

/// What the next word of a line is, as far as that is known before it.
#[derive(Clone, Copy, Debug, PartialEq, Eq)]
pub enum Next {
    /// That.
    At(Place),
    /// The first of a line.
    LineStart,
    /// The first of a line of findings.
    FindingStart,
    /// A key, or what parts calls from what stands before them.
    KeyOrCalls,
    /// A position if it is a number, else a key.
    PositionOrKey,
    /// The number of an answer, or what parts calls.
    NumberOrCall,
    /// The number of a line if it begins with a digit, else the first word of what is wrong.
    LineOrWrong,
}

/// How the word of a place is written.
#[derive(Clone, Copy)]
pub(crate) struct Writing {
    /// What stands before it.
    pub(crate) front: &'static str,
    pub(crate) form: Form,
    pub(crate) next: Next,
    /// What ends the object if the line ends before it.
    pub(crate) without: &'static str,
}

fn write_as(front: &'static str, form: Form, next: Next, without: &'static str) -> Writing
    ensures front { result.front.now ≡ front.now }
    ensures form { result.form ≡ form }
    ensures next { result.next ≡ next }
    ensures without { result.without.now ≡ without.now }
{
    Writing {
        front,
        form,
        next,
        without,
    }
}

/// The table of places.
pub(crate) fn writing_of(place: Place) -> Writing
    ensures front { result.front.now ≡ (writing_of place).front }
    ensures form { result.form ≡ (writing_of place).form }
    ensures next { result.next ≡ (writing_of place).next }
    ensures without { result.without.now ≡ (writing_of place).without }
{
    match place {
        Place::Pair => write_as("{", Form::Quoted, Next::At(Place::Value), ""),
        Place::RunLine => write_as("{", Form::Quoted, Next::At(Place::RunNumber), ""),
        Place::TableLine => write_as("{\"count\"", Form::Nothing, Next::At(Place::Value), ""),
        Place::HeldUpLine => write_as("{\"held_up\"", Form::Nothing, Next::At(Place::HeldUp), ""),
        Place::MetLine => write_as("{", Form::Quoted, Next::At(Place::Met), ""),
        Place::FactLine => write_as("{\"fact\":", Form::Quoted, Next::KeyOrCalls, ""),
        Place::PoolLine => write_as("{", Form::Quoted, Next::At(Place::Frames), ""),
        Place::BeginLine => write_as("{\"event\":", Form::Quoted, Next::At(Place::BeginTask), ""),
        Place::EventLine => write_as("{\"event\":", Form::Quoted, Next::At(Place::EventTask), ""),
        Place::ResizeLine => write_as("{\"event\":", Form::Quoted, Next::At(Place::NewFrames), ""),
        Place::Workload => write_as("{\"workload\":", Form::Quoted, Next::At(Place::Worked), ""),
        Place::Finding => write_as("{\"finding\":", Form::Named, Next::LineOrWrong, ""),
        Place::Key => write_as(",", Form::Quoted, Next::At(Place::Value), "}"),
        Place::Value => write_as(":", Form::Valued, Next::KeyOrCalls, ":true}"),
        Place::RunNumber => write_as(":", Form::Valued, Next::At(Place::Ending), ":true}"),
        Place::Ending => write_as(",\"ending\":", Form::Quoted, Next::PositionOrKey, "}"),
        Place::Position => write_as(",\"position\":", Form::Valued, Next::KeyOrCalls, "}"),
        Place::HeldUp => write_as(":", Form::Valued, Next::At(Place::Runs), ":true}"),
        Place::Met => write_as(":", Form::Quoted, Next::At(Place::With), ":true}"),
        Place::With => write_as(",\"with\":", Form::Quoted, Next::At(Place::Runs), "}"),
        Place::Runs => write_as(",\"runs\":", Form::Valued, Next::KeyOrCalls, "}"),
        Place::Worked => write_as(",\"ending\":", Form::Quoted, Next::KeyOrCalls, "}"),
        Place::FirstCall => write_as(
            ",\"calls\":[{\"task\":",
            Form::Nothing,
            Next::At(Place::Task),
            "}",
        ),
        Place::NextCall => write_as("},{\"task\":", Form::Nothing, Next::At(Place::Task), "}]}"),
        Place::Task => write_as("", Form::Valued, Next::At(Place::Call), "null}]}"),
        Place::Call => write_as(",\"call\":", Form::Quoted, Next::At(Place::Answer), "}]}"),
        Place::Answer => write_as(",\"answer\":", Form::Quoted, Next::NumberOrCall, "}]}"),
        Place::Number => write_as(",\"number\":", Form::Valued, Next::NumberOrCall, "}]}"),
        Place::Frames => write_as(
            ":{\"frames\":",
            Form::Valued,
            Next::At(Place::Files),
            ":true}",
        ),
        Place::Files => write_as(",\"files\":", Form::Valued, Next::At(Place::Slots), "}}"),
        Place::Slots => write_as(",\"slots\":", Form::Valued, Next::At(Place::Tasks), "}}"),
        Place::Tasks => write_as(",\"tasks\":", Form::Valued, Next::At(Place::Quota), "}}"),
        Place::Quota => write_as(",\"quota\":", Form::Valued, Next::At(Place::Quota), "}}"),
        Place::BeginTask => write_as(",\"task\":", Form::Valued, Next::At(Place::Operation), "}"),
        Place::Operation => write_as(",\"op\":", Form::Quoted, Next::At(Place::Numbers), "}"),
        Place::Numbers => write_as(",\"numbers\":[", Form::Valued, Next::At(Place::More), "}"),
        Place::More => write_as(",", Form::Valued, Next::At(Place::More), "]}"),
        Place::EventTask => write_as(",\"task\":", Form::Valued, Next::KeyOrCalls, "}"),
        Place::NewFrames => write_as(",\"frames\":", Form::Valued, Next::KeyOrCalls, "}"),
        Place::FindingLine => write_as(",\"number\":", Form::Numbered, Next::At(Place::Wrong), "}"),
        Place::Wrong => write_as(
            ",\"wrong\":\"",
            Form::Inside,
            Next::At(Place::MoreWrong),
            "}",
        ),
        Place::MoreWrong => write_as(" ", Form::Inside, Next::At(Place::MoreWrong), "\"}"),
    }
}

/// The name of the command.
pub(crate) fn command(output: Output) -> &'static str
    ensures { result.now ≡ command output }
{
    match output {
        Output::Explore => "explore",
        Output::Find => "find",
        Output::Schedule => "schedule",
        Output::Minimize => "minimize",
        Output::Race => "race",
        Output::Work | Output::WorkTrace => "work",
        Output::Check => "check",
        Output::Audit => "audit",
    }
}

/// What the first word of a line is.
pub(crate) fn opening(output: Output) -> Next
    ensures { result ≡ opening output }
{
    match output {
        Output::Explore
        | Output::Find
        | Output::Schedule
        | Output::Minimize
        | Output::Race
        | Output::WorkTrace
        | Output::Check => Next::LineStart,
        Output::Work => Next::At(Place::Workload),
        Output::Audit => Next::FindingStart,
    }
}

/// What a line is about that begins with that word.
fn first_place(word: &[u8]) -> Place
    ensures { result ≡ first_place word.now }
{
    if word == b"run".as_slice() {
        Place::RunLine
    } else if word == b"ending".as_slice() {
        Place::TableLine
    } else if word == b"held-up".as_slice() {
        Place::HeldUpLine
    } else if word == b"met".as_slice() {
        Place::MetLine
    } else if word == b"turns".as_slice() {
        Place::FactLine
    } else if word == b"pool".as_slice() {
        Place::PoolLine
    } else if word == b"begin".as_slice() {
        Place::BeginLine
    } else if word == b"step".as_slice() {
        Place::EventLine
    } else if word == b"deny".as_slice() {
        Place::EventLine
    } else if word == b"kill".as_slice() {
        Place::EventLine
    } else if word == b"resize".as_slice() {
        Place::ResizeLine
    } else {
        Place::Pair
    }
}

/// Whether a word begins with a digit.
fn begins_with_digit(word: &[u8]) -> bool
    ensures { result ≡ begins_with_digit word.now }
{
    match word {
        [first, ..] => first.is_ascii_digit(),
        [] => false,
    }
}

/// What a word is.
pub(crate) fn place_at(next: Next, word: &[u8]) -> Place
    ensures { result ≡ place_at next word.now }
{
    match next {
        Next::At(place) => place,
        Next::LineStart => first_place(word),
        Next::FindingStart if word == b"findings".as_slice() => Place::Pair,
        Next::FindingStart => Place::Finding,
        Next::KeyOrCalls if word == b"|".as_slice() => Place::FirstCall,
        Next::KeyOrCalls => Place::Key,
        Next::PositionOrKey if is_number(word) => Place::Position,
        Next::PositionOrKey => Place::Key,
        Next::NumberOrCall if word == b"|".as_slice() => Place::NextCall,
        Next::NumberOrCall => Place::Number,
        Next::LineOrWrong if begins_with_digit(word) => Place::FindingLine,
        Next::LineOrWrong => Place::Wrong,
    }
}

/// What ends the object of a line that ends here.
pub(crate) fn closing(next: Next) -> &'static str
    ensures { result.now ≡ closing next }
{
    match next {
        Next::At(place) => writing_of(place).without,
        Next::LineStart | Next::FindingStart => "",
        Next::KeyOrCalls | Next::PositionOrKey | Next::LineOrWrong => "}",
        Next::NumberOrCall => "}]}",
    }
}

/// Whether all bytes are digits.
fn all_digits(word: &[u8]) -> bool
    ensures { result ≡ list_all is_ascii_digit word.now }
{
    word.iter().all(|byte| byte.is_ascii_digit())
}

/// Whether a word is a number.
pub(crate) fn is_number(word: &[u8]) -> bool
    ensures { result ≡ is_number word.now }
{
    !word.is_empty() && all_digits(word)
}
