// The judging pass of writing: 20, 21 and the length of the file, in one pass over the lent rows.
#![tactic(auto)]

pub mod state;
pub mod step;

ghost use Rattle.std.specs.Prelude.{◌≡◌, true, [], ℕ, ◌+◌, ◌≤◌};
ghost use Rattle.sheet.specs.declared.Sheet as sheets;
ghost use Rattle.paper.specs.Days.{real_day};
ghost use Rattle.paper.specs.Batch.{Header};
ghost use Rattle.paper.specs.Carried.{Place};
ghost use Rattle.paper.specs.Rows.{rows_in, things_in};
ghost use Rattle.roundtrip.specs.flat.Count.{file_closing};
ghost use Rattle.rows.specs.walk.Walks.{before_of};
ghost use Rattle.survey.specs.state.Stands.{resume};
ghost use Rattle.survey.specs.state.Low.{Low};
ghost use Rattle.survey.specs.Told.{told, judged, Small};

use crate::state::{Found, State, Step};
use calendar::term::Banks;
use fileline::seen::Seen;
use rows::field::{Field, Wrong};
use sheet::Sheet;

// Why rows are not written: they are no batch (20), or the sheet cannot carry them (21); and what is wrong first.
#[derive(Clone, Copy)]
pub enum Unwritable {
    NotABatch(Wrong),
    NotCarried(Found),
}

// What judging ends in: the bytes of all lines behind the first.
pub type Surveyed = Result<u64, Unwritable>;

// The bytes of all lines behind the first, once the lines that close are added.
fn all_bytes(st: State) -> u64
    requires { st.bytes ≤ 100000000000 }
    ensures { (result ≡ st.bytes + file_closing (before_of st.before).stage st.before.sum) × (result ≤ 200000000000) }
{
    let before = st.before;
    let stage = before.stage;
    let closing = crate::state::file_closing(stage, before.sum);
    st.bytes + closing
}

// Behind the last row, where row k would stand.
fn finish(k: u64, st: State) -> Surveyed
    requires { Low k st }
    ensures result_value { (sh : sheets.Sheet) (today : ℕ) (h : Header) (p : Place) → told result ≡ resume sh today h k p st [] }
    ensures small { Small result }
{
    let before = st.before;
    if !rows::walk::may_stop(before.stage) {
        let field = Field::Row;
        return Err(Unwritable::NotABatch(Wrong { row: k, field }));
    }
    match st.found {
        Some(found) => Err(Unwritable::NotCarried(found)),
        None => Ok(all_bytes(st)),
    }
}

// The lent rows, on a sheet and a day; the header's interval goes from `from` to `to`.
pub fn survey(rows: &[u8], texts: &[u8], sh: Sheet, today: u64, from: u64, to: u64) -> Surveyed
    requires { real_day today ≡ true }
    ensures result_value { (h : Header) → h.from ≡ from → h.to ≡ to → told result ≡ judged sh today h (things_in texts.now (rows_in rows.now)) }
    ensures small { Small result }
{
    let count = rows.len() / 192;
    let (mut all, mut kind): (u64, u64) = (0, 0);
    let mut due = Banks::Any;
    let mut seen = Seen::none();
    let mut st = crate::state::start();
    for i in 0..count {
        let k = i as u64 + 1;
        let row = rows::read::read_row(rows, i * 192);
        let step = match step::step_of(
            row, texts, sh, today, from, to, seen, k, all, kind, due, st,
        ) {
            Ok(step) => step,
            Err(field) => return Err(Unwritable::NotABatch(Wrong { row: k, field })),
        };
        match step {
            Step::Item(next) => {
                st = next;
                all += 1;
            }
            Step::Group(next, date) => {
                st = next;
                due = calendar::term::banks_due(sh, today, kind, date);
            }
            Step::File(next, other, first) => {
                st = next;
                seen = seen.with(first);
                kind = other;
                due = calendar::term::banks_due(sh, today, kind, 0);
            }
        }
    }
    let row = count as u64 + 1;
    if count * 192 < rows.len() {
        let field = Field::Row;
        return Err(Unwritable::NotABatch(Wrong { row, field }));
    }
    finish(row, st)
}
