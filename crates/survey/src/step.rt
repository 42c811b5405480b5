// One lent row, judged: what it leads to by 20, 21 and its line's bytes. Each kind of row goes by the same stages: what it leads to by 20
// (`rows::walk`); what was found for 21 behind it; the bytes behind it; the state behind it, which is these three.
ghost use Rattle.std.specs.Prelude.{◌≡◌, true, List, ℕ, ◌+◌, ◌≤◌, ◌<◌, ltb, Ok};
ghost use Rattle.sheet.specs.declared.Sheet as sheets;
ghost use Rattle.paper.specs.Accounts.{account};
ghost use Rattle.paper.specs.Days.{real_day};
ghost use Rattle.paper.specs.Batch.{Header, a_file, a_group, an_item};
ghost use Rattle.paper.specs.Carried.{Place, item_carried};
ghost use Rattle.paper.specs.Proper.{Verdict, check};
ghost use Rattle.paper.specs.Words.{words};
ghost use Rattle.calendar.specs.term.Allows.{allows};
ghost use Rattle.rows.specs.field.Numbers.{numbered};
ghost use Rattle.rows.specs.read.After.{after};
ghost use Rattle.rows.specs.read.Sized.{Sized};
ghost use Rattle.rows.specs.read.Told.{item_of, told_item};
ghost use Rattle.rows.specs.walk.Walks.{Walks};
ghost use Rattle.fileline.specs.seen.Bits.{Holds};
ghost use Rattle.survey.specs.state.Known.{Due};
ghost use Rattle.survey.specs.state.Low.{Low};
ghost use Rattle.survey.specs.state.Row.{Finds, Adds, Behind};
ghost use Rattle.survey.specs.step.Steps.{Steps, StepsRead};

use crate::state::{Found, State, Step};
use calendar::term::Banks;
use fileline::seen::Seen;
use rows::field::Field;
use rows::read::{ItemRow, Row};
use rows::walk::Before;
use sheet::Sheet;

// A test's answer, with the field by its number.
fn numbered(test: Result<(), Field>) -> Result<(), u64>
    ensures { result ≡ numbered test }
{
    match test {
        Ok(()) => Ok(()),
        Err(field) => Err(field.number()),
    }
}

// ---- an account file

// What was found behind row k. `seen` are the first three digits of earlier numbers.
fn file_found(
    sh: Sheet,
    from: u64,
    to: u64,
    seen: Seen,
    k: u64,
    st: State,
    kind: u64,
    number: u64,
) -> Option<Found>
    requires number_bound { number < 1000000 }
    ensures { (today : ℕ) (h : Header) (p : Place) → h.from ≡ from → h.to ≡ to → Holds seen.words p.seen → Finds sh today h p k st (a_file kind number) result }
{
    match st.found {
        Some(found) => Some(found),
        None => {
            let test = rows::carried::file_carried(sh, from, to, seen, kind, number);
            crate::state::tested(k, numbered(test))
        }
    }
}

// The bytes with its line and CR LF, and with what it closes.
fn file_bytes(st: State) -> u64
    requires { st.bytes ≤ 100000000000 }
    ensures adds { (sh : sheets.Sheet) (kind number : ℕ) → Adds sh st (a_file kind number) result }
    ensures upper_bound { result ≤ st.bytes + 500 }
{
    let before = st.before;
    let stage = before.stage;
    let closing = crate::state::file_closing(stage, before.sum);
    let line = spelling::linelen::file_len() as u64;
    st.bytes + closing + line + 2
}

// The state behind row k.
fn behind_file(
    sh: Sheet,
    from: u64,
    to: u64,
    seen: Seen,
    k: u64,
    st: State,
    next: Before,
    kind: u64,
    number: u64,
) -> State
    requires low { Low k st }
    requires walks { Walks st.before (a_file kind number) (Ok next) }
    ensures low_2 { Low (k + 1) result }
    ensures by_index { (today : ℕ) (h : Header) (p : Place) → h.from ≡ from → h.to ≡ to → Holds seen.words p.seen → Behind sh today h p k st (a_file kind number) result }
{
    let bytes = file_bytes(st);
    let found = file_found(sh, from, to, seen, k, st, kind, number);
    State {
        before: next,
        bytes,
        found,
    }
}

// Row k is an account file.
fn file_row(
    sh: Sheet,
    from: u64,
    to: u64,
    seen: Seen,
    k: u64,
    st: State,
    kind: u64,
    number: u64,
) -> Result<Step, Field>
    requires { Low k st }
    ensures { (today all before : ℕ) (banks : Banks) → Steps sh today from to all before banks seen.words k st (a_file kind number) result }
{
    let before = st.before;
    let next = rows::walk::file_proper(before, kind, number)?;
    Ok(Step::File(
        behind_file(sh, from, to, seen, k, st, next, kind, number),
        kind,
        number / 1000,
    ))
}

// ---- a group

// What was found behind row k.
fn group_found(
    sh: Sheet,
    today: u64,
    k: u64,
    kind: u64,
    st: State,
    date: u64,
    prefix: u64,
    base: u64,
) -> Option<Found>
    requires today_value { real_day today ≡ true }
    requires date_value { real_day date ≡ true }
    ensures { (h : Header) (p : Place) → p.kind ≡ kind → Finds sh today h p k st (a_group date (account prefix base)) result }
{
    match st.found {
        Some(found) => Some(found),
        None => {
            let test = rows::carried::group_carried(sh, today, kind, date);
            crate::state::tested(k, numbered(test))
        }
    }
}

// The bytes with its line but for the total, with CR LF, and with what it closes.
fn group_bytes(sh: Sheet, st: State, prefix: u64, base: u64) -> u64
    requires { st.bytes ≤ 100000000000 }
    ensures by_index { (date : ℕ) → Adds sh st (a_group date (account prefix base)) result }
    ensures upper_bound { result ≤ st.bytes + 500 }
{
    let before = st.before;
    let stage = before.stage;
    let closing = crate::state::group_closing(stage, before.sum);
    let line = spelling::linelen::group_front_len(sh, prefix, base) as u64;
    st.bytes + closing + line + 2
}

// The state behind row k.
fn behind_group(
    sh: Sheet,
    today: u64,
    k: u64,
    kind: u64,
    st: State,
    next: Before,
    date: u64,
    prefix: u64,
    base: u64,
) -> State
    requires today_value { real_day today ≡ true }
    requires low { Low k st }
    requires walks { Walks st.before (a_group date (account prefix base)) (Ok next) }
    ensures low_2 { Low (k + 1) result }
    ensures behind { (h : Header) (p : Place) → p.kind ≡ kind → Behind sh today h p k st (a_group date (account prefix base)) result }
{
    let bytes = group_bytes(sh, st, prefix, base);
    let found = group_found(sh, today, k, kind, st, date, prefix, base);
    State {
        before: next,
        bytes,
        found,
    }
}

// Row k is a group.
fn group_row(
    sh: Sheet,
    today: u64,
    k: u64,
    kind: u64,
    st: State,
    date: u64,
    prefix: u64,
    base: u64,
) -> Result<Step, Field>
    requires today_value { real_day today ≡ true }
    requires low { Low k st }
    ensures { (from to all : ℕ) (banks : Banks) (seen : List ℕ) → Steps sh today from to all kind banks seen k st (a_group date (account prefix base)) result }
{
    let before = st.before;
    let next = rows::walk::group_proper(before, date, prefix, base)?;
    Ok(Step::Group(
        behind_group(sh, today, k, kind, st, next, date, prefix, base),
        date,
    ))
}

// ---- an item

// Is the payee bank one of those that may be due?
fn bank_due(sh: Sheet, banks: Banks, bank: u64) -> bool
    ensures { result ≡ allows banks sh.bank bank }
{
    match banks {
        Banks::Any => true,
        Banks::Own => bank == sh.bank_code(),
        Banks::Nobody => false,
    }
}

// What the sheet cannot carry of an item that has `all` items before it in the whole file, and may have one of these payee banks.
fn item_fits(sh: Sheet, texts: &[u8], all: u64, banks: Banks, x: ItemRow) -> Result<(), Field>
    requires { Sized texts.now x }
    ensures { (k : ℕ) (rest : Verdict) → after k result rest ≡ check k 0 (ltb all sh.fileitems)
        (check k 5 (allows banks sh.bank x.bank) (item_carried sh k (item_of texts.now x) rest)) }
{
    let limits = sh.limits();
    if limits.items <= all {
        return Err(Field::Row);
    }
    let due = bank_due(sh, banks, x.bank);
    if !due {
        return Err(Field::ItemBank);
    }
    rows::carried::item_carried(sh, texts, x)
}

// What was found behind row k.
fn item_found(
    sh: Sheet,
    texts: &[u8],
    k: u64,
    all: u64,
    banks: Banks,
    st: State,
    x: ItemRow,
) -> Option<Found>
    requires sized { Sized texts.now x }
    ensures { (today : ℕ) (h : Header) (p : Place) → p.items ≡ all → Due sh today banks p.kind p.date → Finds sh today h p k st (an_item (item_of texts.now x)) result }
{
    match st.found {
        Some(found) => Some(found),
        None => {
            let test = item_fits(sh, texts, all, banks, x);
            crate::state::tested(k, numbered(test))
        }
    }
}

// The bytes with its line and CR LF.
fn item_bytes(sh: Sheet, texts: &[u8], st: State, x: ItemRow) -> u64
    requires sized { Sized texts.now x }
    requires bytes_bound { st.bytes ≤ 100000000000 }
    ensures adds { Adds sh st (an_item (item_of texts.now x)) result }
    ensures upper_bound { result ≤ st.bytes + 500 }
{
    let line = spelling::itemlen::item_len(sh, texts, x) as u64;
    st.bytes + line + 2
}

// The state behind row k.
fn behind_item(
    sh: Sheet,
    texts: &[u8],
    k: u64,
    all: u64,
    banks: Banks,
    st: State,
    next: Before,
    x: ItemRow,
) -> State
    requires low { Low k st }
    requires walks { Walks st.before (an_item (item_of texts.now x)) (Ok next) }
    ensures low_2 { Low (k + 1) result }
    ensures by_index { (today : ℕ) (h : Header) (p : Place) → p.items ≡ all → Due sh today banks p.kind p.date → Behind sh today h p k st (an_item (item_of texts.now x)) result }
{
    let bytes = item_bytes(sh, texts, st, x);
    let found = item_found(sh, texts, k, all, banks, st, x);
    State {
        before: next,
        bytes,
        found,
    }
}

// Row k is an item.
fn item_row(
    sh: Sheet,
    texts: &[u8],
    k: u64,
    all: u64,
    banks: Banks,
    st: State,
    x: ItemRow,
) -> Result<Step, Field>
    requires { Low k st }
    ensures { (today from to kind : ℕ) (seen : List ℕ) → Steps sh today from to all kind banks seen k st (told_item texts.now x) result }
{
    let before = st.before;
    let next = rows::walk::item_proper(texts, before, x)?;
    Ok(Step::Item(behind_item(sh, texts, k, all, banks, st, next, x)))
}

// ---- any row

// Row k, which was read as `row`; one of no known kind is none of a batch.
pub fn step_of(
    row: Option<Row>,
    texts: &[u8],
    sh: Sheet,
    today: u64,
    from: u64,
    to: u64,
    seen: Seen,
    k: u64,
    all: u64,
    kind: u64,
    banks: Banks,
    st: State,
) -> Result<Step, Field>
    requires today_value { real_day today ≡ true }
    requires low { Low k st }
    ensures { StepsRead sh today from to all kind banks seen.words k st texts.now row result }
{
    let Some(row) = row else {
        return Err(Field::Row);
    };
    match row {
        Row::Item(x) => item_row(sh, texts, k, all, banks, st, x),
        Row::Group { date, prefix, base } => {
            group_row(sh, today, k, kind, st, date, prefix, base)
        }
        Row::File { kind, number } => file_row(sh, from, to, seen, k, st, kind, number),
    }
}
