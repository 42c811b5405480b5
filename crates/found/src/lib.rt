// What is found in the line at which judging halts, or at the file's end, from the numbers that a pass keeps.
#![tactic(auto)]

ghost use Rattle.std.specs.Prelude.{◌≡◌, ℕ, ◌+◌, ◌-◌, ◌%◌, ◌^◌, ◌≤◌, true, false, List, length, take, drop, ◌==◌, nat_le};
ghost use Rattle.base.specs.Pick.{pick};
ghost use Rattle.sheet.proofs.Laws.{Sane};
ghost use Rattle.paper.specs.Bytes.{field_of};
ghost use Rattle.paper.specs.Days.{real_day};
ghost use Rattle.paper.specs.Batch.{Header};
ghost use Rattle.paper.specs.Lines.{line as line'};
ghost use Rattle.paper.specs.Entries.{item_line, kind_of};
ghost use Rattle.paper.specs.Judge.{State, is};
ghost use Rattle.scan.specs.kind.Told.{told};
ghost use Rattle.tally.specs.Tally.{is_due, is_full};
ghost use Rattle.judge.specs.group.Stands.{open_of, line_in};
ghost use Rattle.why.specs.Names.{group_total, whole_line};
ghost use Rattle.why.specs.Finding.{finding, blame, early};
ghost use Rattle.course.specs.Stands.{numbers_of, Stands};
ghost use Rattle.found.specs.Numbers.{due_cause, not_due, full_cause, full_limit, too_many, total_found, at_total};
ghost use Rattle.found.specs.Bearings.{bearing, bearing_at, Faults};

use course::{Course, Stage};
use fault::known::Bearing;
use fileline::seen::Seen;
use judge::group::Open;
use scan::kind::LineKind;
use sheet::Sheet;
use why::Finding;

// ---- what is due, and when it is full

// Is it a line that opens one more, or, once there are some, one that closes?
fn more_or_end(kind: LineKind, more: LineKind, end: LineKind, some: u64) -> bool
    ensures { result ≡ pick (is (told more) (told kind)) true (pick (is (told end) (told kind)) (pick (some == 0) false true) false) }
{
    if more == kind {
        return true;
    }
    if end == kind {
        if some == 0 {
            return false;
        }
        return true;
    }
    false
}

// Is a line of this kind due?
fn is_due(stage: Stage, kind: LineKind) -> bool
    ensures { (h : Header) (l : List ℕ) → result ≡ is_due (numbers_of h l stage) (told kind) }
{
    match stage {
        Stage::First => LineKind::Head == kind,
        Stage::File(_) => LineKind::File == kind,
        Stage::Group(_, s) => more_or_end(kind, LineKind::Group, LineKind::FileEnd, s.groups),
        Stage::Item(x) => more_or_end(kind, LineKind::Item, LineKind::GroupEnd, x.opened.count),
    }
}

// Has an account file so many items that there is no room for one more, or the file?
fn items_full(kind: LineKind, inside: u64, items: u64, most: u64) -> bool
    ensures { result ≡ pick (is item_line (told kind)) (pick (nat_le 99999 inside) true (nat_le most items)) false }
{
    if LineKind::Item == kind {
        if 99999 <= inside {
            return true;
        }
        return most <= items;
    }
    false
}

// Is there no room for one line more of this kind?
fn is_full(sh: Sheet, stage: Stage, kind: LineKind) -> bool
    ensures { (h : Header) (l : List ℕ) → result ≡ is_full sh (numbers_of h l stage) (told kind) }
{
    match stage {
        Stage::First => false,
        Stage::File(c) => 1000 <= c.files,
        Stage::Group(_, _) => false,
        Stage::Item(x) => items_full(kind, x.shelf.items, x.counts.items, sh.fileitems),
    }
}

// All of the line from `at` to `stop` was found.
fn whole_line(number: u64, cause: u64, at: usize, stop: usize, line: u64, most: u64) -> Finding
    requires { at ≤ stop }
    ensures { result ≡ finding number cause line at (stop - at) whole_line 0 most }
{
    Finding {
        number,
        cause,
        line,
        byte: at as u64,
        length: (stop - at) as u64,
        field: 0,
        least: 0,
        most,
    }
}

// ---- 3: which line was due

// One cause while there are none, another once there are some.
fn by_count(n: u64, none: u64, some: u64) -> u64
    ensures { result ≡ pick (n == 0) none some }
{
    if n == 0 {
        return none;
    }
    some
}

// The cause where another line was due.
fn due_cause(stage: Stage) -> u64
    ensures { (h : Header) (l : List ℕ) → result ≡ due_cause (numbers_of h l stage) }
{
    match stage {
        Stage::First => 30,
        Stage::File(c) => by_count(c.files, 31, 36),
        Stage::Group(_, s) => by_count(s.groups, 32, 35),
        Stage::Item(x) => by_count(x.opened.count, 33, 34),
    }
}

// The line from `at` to `stop`, which is not due.
fn not_due(stage: Stage, at: usize, stop: usize, line: u64) -> Finding
    requires { at ≤ stop }
    ensures { (f : List ℕ) → stop ≤ length f → (h : Header) (l : List ℕ) → result ≡ not_due line (line_in f at stop) (numbers_of h l stage) }
{
    whole_line(3, due_cause(stage), at, stop, line, 0)
}

// ---- 15: which limit was reached

// One of two numbers: of an account file that has all its items, or of the whole file.
fn by_limit(inside: u64, here: u64, whole: u64) -> u64
    ensures { result ≡ pick (nat_le 99999 inside) here whole }
{
    if 99999 <= inside {
        return here;
    }
    whole
}

// The cause, by how many items the account file has.
fn full_cause(stage: Stage) -> u64
    ensures { (h : Header) (l : List ℕ) → result ≡ full_cause (numbers_of h l stage) }
{
    match stage {
        Stage::First => 150,
        Stage::File(_) => 150,
        Stage::Group(_, _) => 150,
        Stage::Item(x) => by_limit(x.shelf.items, 151, 152),
    }
}

// So many were allowed.
fn full_limit(sh: Sheet, stage: Stage) -> u64
    ensures { (h : Header) (l : List ℕ) → result ≡ full_limit sh (numbers_of h l stage) }
{
    match stage {
        Stage::First => 1000,
        Stage::File(_) => 1000,
        Stage::Group(_, _) => 1000,
        Stage::Item(x) => by_limit(x.shelf.items, 99999, sh.fileitems),
    }
}

// The line from `at` to `stop`, which is one too many.
fn too_many(sh: Sheet, stage: Stage, at: usize, stop: usize, line: u64) -> Finding
    requires { at ≤ stop }
    ensures { (f : List ℕ) → stop ≤ length f → (h : Header) (l : List ℕ) → result ≡ too_many sh line (line_in f at stop) (numbers_of h l stage) }
{
    whole_line(15, full_cause(stage), at, stop, line, full_limit(sh, stage))
}

// ---- 10: the closing line has passed, and the total is refused

// How long the field is that begins at this byte; nothing stands behind the file.
fn field_length(f: &[u8], byte: u64) -> u64
    ensures { result ≡ length (field_of (drop byte f.now)) }
{
    if byte <= f.len() as u64 {
        let from = byte as usize;
        return (scan::find::find_byte(f, from, 32) - from) as u64;
    }
    0
}

// 10, at a total.
fn refused_total(cause: u64, line: u64, byte: u64, length: u64, least: u64, most: u64) -> Finding
    ensures { result ≡ finding 10 cause line byte length group_total least most }
{
    Finding {
        number: 10,
        cause,
        line,
        byte,
        length,
        field: 21,
        least,
        most,
    }
}

// The total of the open group: the sum passes 14 digits, or is another.
fn total_found(f: &[u8], x: Open) -> Finding
    ensures { result ≡ total_found f.now (open_of x) }
{
    let length = field_length(f, x.byte);
    let sum = x.sum;
    if 99999999999999 < sum {
        return refused_total(101, x.line, x.byte, length, 0, 99999999999999);
    }
    refused_total(100, x.line, x.byte, length, sum, sum)
}

// What is refused behind a line that has no fault.
fn at_total(f: &[u8], stage: Stage) -> Finding
    ensures { (h : Header) (l : List ℕ) → result ≡ at_total f.now (numbers_of h l stage) }
{
    match stage {
        Stage::First => refused_total(100, 0, 0, 0, 0, 0),
        Stage::File(_) => refused_total(100, 0, 0, 0, 0, 0),
        Stage::Group(_, _) => refused_total(100, 0, 0, 0, 0, 0),
        Stage::Item(x) => total_found(f, x.opened),
    }
}

// ---- a fault of the line

// What is known of a line, of these.
fn bearing_of(kind: u64, date: u64, single: bool, from: u64, to: u64, seen: Seen) -> Bearing
    ensures { result ≡ bearing kind date single from to seen }
{
    Bearing {
        kind,
        date,
        single,
        from,
        to,
        seen,
    }
}

// What is known of a line where the pass stands.
fn bearing_at(stage: Stage, from: u64, to: u64, seen: Seen) -> Bearing
    ensures { result ≡ bearing_at stage from to seen }
{
    match stage {
        Stage::First => bearing_of(0, 0, false, from, to, seen),
        Stage::File(_) => bearing_of(0, 0, false, from, to, seen),
        Stage::Group(_, s) => bearing_of(s.kind, 0, false, from, to, seen),
        Stage::Item(x) => bearing_of(x.shelf.kind, x.opened.date, x.opened.single, from, to, seen),
    }
}

// The byte of the file at an offset of the line from `at` on. A place past the last one of 64 bits begins anew; a walk's offset lies in its line.
fn byte_at(at: usize, offset: usize) -> u64
    ensures { result ≡ (at + offset) % 2 ^ 64 }
{
    std::num::wrapping_add_usize(at, offset) as u64
}

// The first fault of a line that is due and not too many; where it has none, the total is what is refused.
fn fault_in(
    f: &[u8],
    sh: Sheet,
    today: u64,
    at: usize,
    stop: usize,
    line: u64,
    x: Course,
    seen: Seen,
) -> Finding
    requires sane { Sane sh × (real_day today ≡ true) }
    requires at_le_stop { (at ≤ stop) × (stop ≤ length f.now) }
    ensures { Faults sh today f.now at stop line x seen.words result }
{
    let stage = x.stage;
    let known = bearing_at(stage, x.from, x.to, seen);
    match fault::known::walk_line(&f[at..stop], sh, today, known) {
        Ok(()) => at_total(f, stage),
        Err(fault) => Finding {
            number: fault.number,
            cause: fault.cause,
            line,
            byte: byte_at(at, fault.offset),
            length: fault.length as u64,
            field: fault.field,
            least: fault.least,
            most: fault.most,
        },
    }
}

// ---- what is found

// What is found in line `line`, the bytes of the file from `at` to `stop`, at which judging halts where the pass stands at x.
pub fn blame_line(
    f: &[u8],
    sh: Sheet,
    today: u64,
    at: usize,
    stop: usize,
    line: u64,
    x: Course,
    seen: Seen,
) -> Finding
    requires sane { Sane sh × (real_day today ≡ true) }
    requires at_le_stop { (at ≤ stop) × (stop ≤ length f.now) }
    ensures { (st : State) → Stands x seen.words st → result ≡ blame sh today f.now line (line' at (take (stop - at) (drop at f.now))) (kind_of (take (stop - at) (drop at f.now))) st }
{
    let stage = x.stage;
    let kind = scan::kind::kind_of(&f[at..stop]);
    if is_due(stage, kind) {
        if is_full(sh, stage, kind) {
            return too_many(sh, stage, at, stop, line);
        }
        return fault_in(f, sh, today, at, stop, line, x, seen);
    }
    not_due(stage, at, stop, line)
}

// What is found at the file's end, where line `line` would be.
pub fn blame_end(f: &[u8], line: u64, x: Course) -> Finding
    ensures { (st : State) (words : List ℕ) → Stands x words st → result ≡ early (length f.now) line st }
{
    let stage = x.stage;
    let cause = due_cause(stage);
    Finding {
        number: 3,
        cause,
        line,
        byte: f.len() as u64,
        length: 0,
        field: 0,
        least: 0,
        most: 0,
    }
}
