// A file's first line walked from its left: fields by place, each judged by its rules; a line that ends inside a field is too short for it.
ghost use Rattle.std.specs.Prelude.{◌≡◌, ℕ, ◌≤◌, length, take, drop};
ghost use Rattle.paper.specs.Spells.{Context};
ghost use Rattle.why.specs.Forms.{spelled};
ghost use Rattle.why.specs.Walk.{why_first};
ghost use Rattle.fault.specs.line.Walks.{walk};
ghost use Rattle.fault.specs.line.Stages.{from_date, from_name, from_client, from_start, from_end, from_rest};

use crate::line::{Fault, in_line, stopped};
use sheet::Sheet;

// The rest of the line.
fn walk_rest(s: &[u8], sh: Sheet) -> Result<(), Fault>
    requires { 46 ≤ length s.now }
    ensures { (today : ℕ) (c : Context) → result ≡ walk (from_rest sh today c s.now 46 (drop 46 s.now)) }
{
    let n = s.len();
    in_line(crate::field::check_rest(&s[46..n], sh.short), 46, n - 46, 6)
}

// The interval's end, of an interval that begins at `start`, and the rest.
fn walk_end(s: &[u8], sh: Sheet, start: u64) -> Result<(), Fault>
    requires { 43 ≤ length s.now }
    ensures { (today : ℕ) (c : Context) → spelled (take 3 (drop 40 s.now)) ≡ start → result ≡ walk (from_end sh today c s.now 43 (drop 43 s.now)) }
{
    let n = s.len();
    if n < 46 {
        return Err(stopped(4, 40, 43, n - 43, 5, 0, 0));
    }
    in_line(
        crate::field::check_end(&s[43..46], sh.interval, start),
        43,
        3,
        5,
    )?;
    walk_rest(s, sh)
}

// The interval's start and what follows it.
fn walk_start(s: &[u8], sh: Sheet) -> Result<(), Fault>
    requires { 40 ≤ length s.now }
    ensures { (today : ℕ) (c : Context) → result ≡ walk (from_start sh today c s.now 40 (drop 40 s.now)) }
{
    let n = s.len();
    if n < 43 {
        return Err(stopped(4, 40, 40, n - 40, 4, 0, 0));
    }
    let Ok(start) = numeral::read_digits(&s[40..43], 3, 3) else {
        return Err(stopped(4, 40, 40, 3, 4, 0, 0));
    };
    walk_end(s, sh, start)
}

// The client number and what follows it.
fn walk_client(s: &[u8], sh: Sheet) -> Result<(), Fault>
    requires { 30 ≤ length s.now }
    ensures { (today : ℕ) (c : Context) → result ≡ walk (from_client sh today c s.now 30 (drop 30 s.now)) }
{
    let n = s.len();
    if n < 40 {
        return Err(stopped(4, 40, 30, n - 30, 3, 0, 0));
    }
    in_line(crate::field::check_digits(&s[30..40], 10, 10), 30, 10, 3)?;
    walk_start(s, sh)
}

// The name and what follows it.
fn walk_name(s: &[u8], sh: Sheet) -> Result<(), Fault>
    requires { 10 ≤ length s.now }
    ensures { (today : ℕ) (c : Context) → result ≡ walk (from_name sh today c s.now 10 (drop 10 s.now)) }
{
    let n = s.len();
    if n < 30 {
        return Err(stopped(4, 40, 10, n - 10, 2, 0, 0));
    }
    in_line(crate::field::check_name(&s[10..30], 20), 10, 20, 2)?;
    walk_client(s, sh)
}

// The creation date and what follows it.
fn walk_date(s: &[u8], sh: Sheet) -> Result<(), Fault>
    requires { 4 ≤ length s.now }
    ensures { (today : ℕ) (c : Context) → result ≡ walk (from_date sh today c s.now 4 (drop 4 s.now)) }
{
    let n = s.len();
    if n < 10 {
        return Err(stopped(4, 40, 4, n - 4, 1, 0, 0));
    }
    in_line(crate::field::check_day(&s[4..10]), 4, 6, 1)?;
    walk_name(s, sh)
}

// `UHL1` and its fields, of a line that begins so; where the sheet reads none (C), anything.
pub fn walk_first(s: &[u8], sh: Sheet) -> Result<(), Fault>
    requires { 4 ≤ length s.now }
    ensures { (today : ℕ) (c : Context) → result ≡ walk (why_first sh today c s.now) }
{
    if sh.header {
        return walk_date(s, sh);
    }
    Ok(())
}
