// Where the judging of lent rows stands between two rows, and the small questions that each row asks of it.
ghost use Rattle.std.specs.Prelude.{◌≡◌, ◌≤◌};
ghost use Rattle.roundtrip.specs.flat.Count.{group_closing, file_closing};
ghost use Rattle.rows.specs.walk.Walks.{stage_of};
ghost use Rattle.survey.specs.state.Stands.{Tests, Starts};

use rows::walk::{Before, Stage};

// What is wrong first: its row, and the number of its field, whatever that is.
#[derive(Clone, Copy)]
pub struct Found {
    pub row: u64,
    pub field: u64,
}

// Before a row: what refusal 20 counts; bytes that the rows before it take, but for the open group's total; the first thing, if any, that the
// sheet cannot carry (21).
#[derive(Clone, Copy)]
pub struct State {
    pub before: Before,
    pub bytes: u64,
    pub found: Option<Found>,
}

// What a row leads to: the state behind an item; behind a group, with its due date; behind an account file, with its kind and the first three
// digits of its number.
#[derive(Clone, Copy)]
pub enum Step {
    Item(State),
    Group(State, u64),
    File(State, u64, u64),
}

// Before the first row.
pub fn start() -> State
    ensures { Starts result }
{
    let before = rows::walk::top();
    State {
        before,
        bytes: 0,
        found: None,
    }
}

// How many bytes an account file, or the end, adds before itself: the open group's total, and the lines that close.
pub fn file_closing(stage: Stage, sum: u64) -> u64
    ensures { (result ≡ file_closing (stage_of stage) sum) × (result ≤ 30) }
{
    match stage {
        Stage::NeedFile => 0,
        Stage::NeedGroup => 0,
        Stage::NeedItem => numeral::width(sum) as u64,
        Stage::Any => numeral::width(sum) as u64 + 10,
    }
}

// How many bytes a group adds before itself.
pub fn group_closing(stage: Stage, sum: u64) -> u64
    ensures { (result ≡ group_closing (stage_of stage) sum) × (result ≤ 30) }
{
    match stage {
        Stage::NeedFile => 0,
        Stage::NeedGroup => 0,
        Stage::NeedItem => numeral::width(sum) as u64,
        Stage::Any => numeral::width(sum) as u64 + 5,
    }
}

// What is found once row k is tested, where nothing was before it.
pub fn tested(k: u64, c: Result<(), u64>) -> Option<Found>
    ensures { Tests k c result }
{
    match c {
        Ok(()) => None,
        Err(field) => Some(Found { row: k, field }),
    }
}
