// The line that begins a group, judged before: its values are taken and nothing is tested.
ghost use Rattle.std.specs.Prelude.{◌≡◌, true, drop};
ghost use Rattle.paper.specs.Accounts.{account};
ghost use Rattle.paper.specs.Terms.{day_here};
ghost use Rattle.paper.specs.GroupLine.{has_payer, total_and_date, read_group};
ghost use Rattle.numeral.specs.placed.Said.{is_said};
ghost use Rattle.groupline.specs.take.Taken.{Opens};

use sheet::Sheet;

// A group's payer, prefix and base 0 where there is none, and its due date.
#[derive(Clone, Copy)]
pub struct Group {
    pub prefix: u64,
    pub base: u64,
    pub date: u64,
}

// TOTAL, at `at`, and DATE, behind the payer. The date ends the line: with six digits a space stands before them.
fn with_date(s: &[u8], at: usize, sh: Sheet, today: u64, prefix: u64, base: u64) -> Group
    requires { is_said (total_and_date sh today (day_here sh 0) (account prefix base) at (drop at s.now)) ≡ true }
    ensures { Opens (total_and_date sh today (day_here sh 0) (account prefix base) at (drop at s.now)) result }
{
    let n = s.len();
    if s[n - 7] == 32 {
        return Group {
            prefix,
            base,
            date: calendar::at::short_day(s, n - 6),
        };
    }
    Group {
        prefix,
        base,
        date: calendar::at::long_day(s, n - 8),
    }
}

// Does the payer's field stand in the line? Where it does not stand always, it is missing if the date follows the first field.
fn has_payer(s: &[u8], sh: Sheet, today: u64) -> bool
    requires { is_said (read_group sh today (day_here sh 0) s.now) ≡ true }
    ensures { result ≡ has_payer sh.emptypayer s.now }
{
    if sh.emptypayer {
        return true;
    }
    let n = s.len();
    let end = scan::line::field_end(s, 2);
    if s[n - 7] == 32 {
        return end + 7 < n;
    }
    end + 9 < n
}

// The whole line, which is known to begin with `2 `.
pub fn take_group(s: &[u8], sh: Sheet, today: u64) -> Group
    requires { is_said (read_group sh today (day_here sh 0) s.now) ≡ true }
    ensures { Opens (read_group sh today (day_here sh 0) s.now) result }
{
    if has_payer(s, sh, today) {
        let payer = account::at::take_payer(
            s,
            2,
            sh.emptypayer,
            sh.zeropayer,
            sh.joined,
            sh.basemin,
        );
        return with_date(s, payer.end + 1, sh, today, payer.prefix, payer.base);
    }
    with_date(s, 2, sh, today, 0, 0)
}
