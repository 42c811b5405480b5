// The line that begins a group: `2 TOTAL DATE`, or with the payer's account before TOTAL.
#![tactic(auto)]

pub mod take;

ghost use Rattle.std.specs.Prelude.{◌≡◌, true, ◌≤◌, ltb, leb, length, drop};
ghost use Rattle.paper.specs.Accounts.{Account};
ghost use Rattle.paper.specs.Days.{real_day};
ghost use Rattle.paper.specs.Entries.{counted};
ghost use Rattle.paper.specs.GroupLine.{space_count, has_payer, total_and_date, read_group};
ghost use Rattle.groupline.specs.Spaced.{spaced};
ghost use Rattle.groupline.specs.Told.{told, Marked, Tells, Low};

use refusal::{Flaw, Refusal, placed};
use sheet::Sheet;

// What judging keeps of the line: whether the group is single, total and due date, how many warnings the line gives, and where in it the
// total stands.
#[derive(Clone, Copy)]
pub struct GroupLine {
    pub single: bool,
    pub total: u64,
    pub date: u64,
    pub warnings: u64,
    pub spot: usize,
}

// Do spaces stand behind the first byte and before the last six, as in `2 TOTAL DDMMRR`?
fn is_spaced(s: &[u8]) -> bool
    ensures { result ≡ spaced s.now }
{
    let n = s.len();
    if n < 9 {
        return false;
    }
    if s[1] != 32 {
        return false;
    }
    s[n - 7] == 32
}

// Does a space stand before `stop`, from the third byte on? It is looked for from the right, as a total is shorter than an account.
fn space_inside(s: &[u8], stop: usize) -> bool
    requires { (2 ≤ stop) × (stop ≤ length s.now) }
    ensures { result ≡ ltb (space_count (drop stop s.now)) (space_count (drop 2 s.now)) }
{
    for i in (2..stop).rev() {
        if s[i] == 32 {
            return true;
        }
    }
    false
}

// Has a line that is spaced so a third space?
fn third_space(s: &[u8]) -> bool
    requires { spaced s.now ≡ true }
    ensures { result ≡ leb 3 (space_count s.now) }
{
    let stop = s.len() - 7;
    if space_inside(s, stop) {
        return true;
    }
    if s[0] == 32 {
        return true;
    }
    scan::line::field_end(s, stop + 1) < s.len()
}

// Does the payer's field stand in the line? Where it does not stand always, the line's spaces tell.
fn has_payer(s: &[u8], always: bool) -> bool
    ensures { result ≡ has_payer always s.now }
{
    if always {
        return true;
    }
    if is_spaced(s) {
        return third_space(s);
    }
    3 <= scan::line::spaces(s)
}

// TOTAL, at `at`, and DATE, behind the payer; the day may be judged here. It is compiled into its caller: called, it would be handed a copy of
// the sheet, which for groups of one item costs as much as judging the item.
#[inline(always)]
fn total_and_date(
    s: &[u8],
    at: usize,
    sh: Sheet,
    today: u64,
    here: bool,
    single: bool,
) -> Result<GroupLine, Flaw>
    requires today_value { real_day today ≡ true }
    requires at_in_bounds { at ≤ length s.now }
    ensures result_value { (payer : Account) → told payer result ≡ counted (total_and_date sh today here payer at (drop at s.now)) }
    ensures marked { Marked single result }
    ensures low { Low result }
{
    let total = placed(amount::at::total_at(s, at, sh.comma), at)?;
    if s.len() <= total.end {
        return Err(Flaw(Refusal::BadField, total.end));
    }
    let from = total.end + 1;
    let limits = sh.limits();
    let due = placed(
        calendar::at::due_at(s, from, sh.longdate, here, sh.early, limits.ahead, today),
        from,
    )?;
    if due.end < s.len() {
        return Err(Flaw(Refusal::BadField, due.end));
    }
    let warnings = calendar::due_warnings(here, sh.warnpast, today, due.value);
    Ok(GroupLine {
        single,
        total: total.value,
        date: due.value,
        warnings,
        spot: at,
    })
}

// The whole line, which is known to begin with `2 `; its day is judged here, or elsewhere.
pub fn group_line(s: &[u8], sh: Sheet, today: u64, here: bool) -> Result<GroupLine, Flaw>
    requires today_value { real_day today ≡ true }
    requires in_bounds { 2 ≤ length s.now }
    ensures tells { Tells (read_group sh today here s.now) result }
    ensures low { Low result }
{
    if has_payer(s, sh.emptypayer) {
        let payer = placed(
            account::at::judge_payer(s, 2, sh.emptypayer, sh.zeropayer, sh.joined, sh.basemin),
            2,
        )?;
        if s.len() <= payer.end {
            return Err(Flaw(Refusal::BadField, payer.end));
        }
        return total_and_date(s, payer.end + 1, sh, today, here, payer.nobody);
    }
    total_and_date(s, 2, sh, today, here, true)
}
