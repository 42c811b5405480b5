// Accounts in a line: judged at their place by the sums of their digits, and taken where the line was judged before.
ghost use Rattle.std.specs.Prelude.{◌≡◌, false, ℕ, ◌+◌, ◌≤◌, ◌<◌, length, drop};
ghost use Rattle.base.specs.Pick.{pick};
ghost use Rattle.refusal.specs.Numbers.{number_of};
ghost use Rattle.paper.specs.Read.{value};
ghost use Rattle.paper.specs.Bytes.{field_of, null};
ghost use Rattle.paper.specs.Numerals.{digits};
ghost use Rattle.paper.specs.Accounts.{ruled, read_account, is_nobody, read_payer};
ghost use Rattle.account.specs.Doubled.{doubled};
ghost use Rattle.numeral.specs.field.At.{ending, field_at};
ghost use Rattle.numeral.specs.field.Digits.{run};
ghost use Rattle.numeral.specs.field.Kept.{keeping, nothing};
ghost use Rattle.numeral.specs.field.Told.{passed};
ghost use Rattle.account.specs.at.Parts.{undashed, dashed, zeros_at};
ghost use Rattle.account.specs.Parts.{with_base};
ghost use Rattle.account.specs.at.Told.{told_payer, told_account};
ghost use Rattle.account.specs.at.Numbers.{prefix_and_base};
ghost use Rattle.numeral.specs.placed.Known.{There};

use refusal::Refusal;

// Digits that were read: their number, their sum by doubling, and the place behind them.
#[derive(Clone, Copy)]
struct Sums {
    pub value: u64,
    pub sum: u64,
    pub end: usize,
}

// The digits from `at` on, up to `most` of them: at each, twice what there is, plus the digit.
fn sum_run(s: &[u8], at: usize, most: usize) -> Sums
    requires { (at ≤ length s.now) × (most ≤ 19) }
    ensures { (result.end ≡ at + length (run most (drop at s.now))) × (digits 0 most (run most (drop at s.now)) ≡ value result.value) × (result.sum ≡ doubled 19 result.value) }
{
    let stop = numeral::field::stop_of(s.len(), at, most);
    let mut value: u64 = 0;
    let mut sum: u64 = 0;
    for end in at..stop {
        let d = numeral::field::worth(s[end]);
        if 9 < d {
            return Sums { value, sum, end };
        }
        value = value * 10 + d;
        sum = crate::next_digit(sum, d);
    }
    Sums {
        value,
        sum,
        end: stop,
    }
}

// Are the digits from `at` to `end` a prefix with its dash?
fn has_prefix(s: &[u8], at: usize, end: usize) -> bool
    requires { (at ≤ end) × (end < length s.now) }
    ensures { result ≡ dashed s.now at end }
{
    let n = end - at;
    if n < 1 {
        return false;
    }
    if 6 < n {
        return false;
    }
    s[end] == 45
}

// An account by the sums of a prefix and a base, refused where they break the rule.
fn judge_sums(p: u64, b: u64, end: usize) -> Result<usize, Refusal>
    ensures { (x y : ℕ) → x < 10000000000 → p ≡ doubled 19 x → y < 10000000000 → b ≡ doubled 19 y → passed result ≡ keeping nothing (ending end (ruled x y)) }
{
    if crate::sums_ok(p, b) {
        return Ok(end);
    }
    Err(Refusal::BadAccount)
}

// The base behind the dash at `at`, and behind a prefix, whose sum is p.
fn judge_base(s: &[u8], at: usize, p: u64, least: usize) -> Result<usize, Refusal>
    requires { at < length s.now }
    ensures { (x : ℕ) → x < 10000000000 → p ≡ doubled 19 x → passed result ≡ keeping nothing (field_at (with_base least x) s.now (at + 1)) }
{
    let from = at + 1;
    let got = sum_run(s, from, 10);
    let end = got.end;
    if numeral::field::ends(s, end) {
        if end - from < least {
            return Err(Refusal::BadField);
        }
        return judge_sums(p, got.sum, end);
    }
    Err(Refusal::BadField)
}

// More than ten digits with no dash, from `at` to `end`: where a sheet takes them (`joined`) they are a prefix and a base. Few have so
// many, so only these are read again for their number.
fn judge_long(s: &[u8], at: usize, joined: bool, end: usize) -> Result<usize, Refusal>
    requires { at ≤ length s.now }
    ensures { (v least n : ℕ) → digits 0 16 (run 16 (drop at s.now)) ≡ value v → 10 < n → passed result ≡ keeping nothing (ending end (undashed joined least n v)) }
{
    if joined {
        let got = numeral::field::digit_run(s, at, 16);
        let v = got.value;
        if crate::account_ok(v / 10000000000, v % 10000000000) {
            return Ok(end);
        }
        return Err(Refusal::BadAccount);
    }
    Err(Refusal::BadField)
}

// The account at `at`. The sums of its digits decide, so no number is made of them.
pub fn judge_account(s: &[u8], at: usize, joined: bool, least: usize) -> Result<usize, Refusal>
    requires { at ≤ length s.now }
    ensures { passed result ≡ keeping nothing (field_at (read_account joined least) s.now at) }
{
    let got = sum_run(s, at, 16);
    let end = got.end;
    if numeral::field::ends(s, end) {
        let n = end - at;
        if 10 < n {
            return judge_long(s, at, joined, end);
        }
        if n < least {
            return Err(Refusal::BadField);
        }
        return judge_sums(0, got.sum, end);
    }
    if has_prefix(s, at, end) {
        return judge_base(s, end, got.sum, least);
    }
    Err(Refusal::BadField)
}

// What judging keeps of a group's payer: whether it is nobody, and where the field ends.
#[derive(Clone, Copy)]
pub struct PayerEnd {
    pub nobody: bool,
    pub end: usize,
}

// Is the field at `at` empty, where that is looked for?
fn left_empty(s: &[u8], at: usize, empty: bool) -> bool
    requires { at ≤ length s.now }
    ensures { result ≡ pick empty (null (field_of (drop at s.now))) false }
{
    if empty {
        return numeral::field::ends(s, at);
    }
    false
}

// A group's payer at `at` whose field is refused as an account: nobody where it has only zeros (`allzero`).
fn zeros_at(s: &[u8], at: usize, allzero: bool, refusal: Refusal) -> Result<PayerEnd, Refusal>
    requires { at ≤ length s.now }
    ensures { told_payer result ≡ keeping is_nobody (zeros_at allzero (number_of refusal) s.now at) }
{
    let end = scan::line::field_end(s, at);
    if crate::only_zeros(&s[at..end], allzero) {
        return Ok(PayerEnd { nobody: true, end });
    }
    Err(refusal)
}

// A group's payer at `at`: nobody if the field is empty (`empty`) or has only zeros (`allzero`), else an account. What is an account does
// not have only zeros, so zeros are looked for only where there is none.
pub fn judge_payer(
    s: &[u8],
    at: usize,
    empty: bool,
    allzero: bool,
    joined: bool,
    least: usize,
) -> Result<PayerEnd, Refusal>
    requires { at ≤ length s.now }
    ensures { told_payer result ≡ keeping is_nobody (field_at (read_payer empty allzero joined least) s.now at) }
{
    if left_empty(s, at, empty) {
        return Ok(PayerEnd {
            nobody: true,
            end: at,
        });
    }
    match judge_account(s, at, joined, least) {
        Ok(end) => Ok(PayerEnd { nobody: false, end }),
        Err(refusal) => zeros_at(s, at, allzero, refusal),
    }
}

// ---- taken

// An account's prefix and base, and where its field ends.
#[derive(Clone, Copy)]
pub struct Account {
    pub prefix: u64,
    pub base: u64,
    pub end: usize,
}

// The prefix and base at `at`, whatever rule they break. Eleven digits or more with no dash can only be a prefix and its base.
fn take_numbers(s: &[u8], at: usize) -> Account
    requires { There prefix_and_base s.now at }
    ensures { told_account result ≡ field_at prefix_and_base s.now at }
{
    let first = numeral::placed::take_run(s, at);
    let end = first.end;
    if s[end] == 45 {
        let base = numeral::placed::take_run(s, end + 1);
        return Account {
            prefix: first.value,
            base: base.value,
            end: base.end,
        };
    }
    let v = first.value;
    if v < 10000000000 {
        return Account {
            prefix: 0,
            base: v,
            end,
        };
    }
    Account {
        prefix: v / 10000000000,
        base: v % 10000000000,
        end,
    }
}

// The account at `at`. What the sheet allows, `joined` and `least`, was judged.
pub fn take_account(s: &[u8], at: usize, joined: bool, least: usize) -> Account
    requires { There (read_account joined least) s.now at }
    ensures { told_account result ≡ field_at (read_account joined least) s.now at }
{
    take_numbers(s, at)
}

// A group's payer at `at`. An empty field and one with only zeros have the numbers of nobody.
pub fn take_payer(
    s: &[u8],
    at: usize,
    empty: bool,
    allzero: bool,
    joined: bool,
    least: usize,
) -> Account
    requires { There (read_payer empty allzero joined least) s.now at }
    ensures { told_account result ≡ field_at (read_payer empty allzero joined least) s.now at }
{
    take_numbers(s, at)
}
