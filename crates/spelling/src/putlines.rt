// The first line, and the lines that begin and close account files and groups, put into the output with CR LF behind them.
ghost use Rattle.std.specs.Prelude.{[], ◌∷◌, ◌++◌, ◌+◌, ◌≤◌, length};
ghost use Rattle.base.specs.Put.{Wrote};
ghost use Rattle.paper.specs.Accounts.{account, spell_account};
ghost use Rattle.paper.specs.Numerals.{decimal, fixed};
ghost use Rattle.paper.specs.Days.{spell_day};
ghost use Rattle.paper.specs.Bytes.{bytes};
ghost use Rattle.paper.specs.FirstLine.{spell_first};
ghost use Rattle.paper.specs.FileLine.{spell_file};
ghost use Rattle.paper.specs.GroupLine.{spell_payer, spell_group};
ghost use Rattle.paper.specs.ClosingLine.{spell_close};

use sheet::Sheet;

// Writes n with no needless zeros, and a space.
pub fn number_space(out: &mut [u8], at: usize, n: u64) -> usize
    requires { at + length (decimal n ++ (32 ∷ [])) ≤ length out.old }
    ensures { Wrote out.old at (decimal n ++ (32 ∷ [])) out.new result }
{
    let e = numeral::put_number(out, at, n);
    out::put::put_byte(out, e, b' ')
}

// Writes n in k digits, and a space.
fn fixed_space(out: &mut [u8], at: usize, k: usize, n: u64) -> usize
    requires { at + length (fixed k n ++ (32 ∷ [])) ≤ length out.old }
    ensures { Wrote out.old at (fixed k n ++ (32 ∷ [])) out.new result }
{
    let e = numeral::put_fixed(out, at, k, n);
    out::put::put_byte(out, e, b' ')
}

// Writes an account and a space.
pub fn account_space(out: &mut [u8], at: usize, prefix: u64, base: u64) -> usize
    requires { at + length (spell_account (account prefix base) ++ (32 ∷ [])) ≤ length out.old }
    ensures { Wrote out.old at (spell_account (account prefix base) ++ (32 ∷ [])) out.new result }
{
    let e = account::put_account(out, at, prefix, base);
    out::put::put_byte(out, e, b' ')
}

// Writes a payer and a space. Nobody has the space alone, or where his field does not stand `always`, nothing.
pub fn put_payer(out: &mut [u8], at: usize, always: bool, prefix: u64, base: u64) -> usize
    requires { at + length (spell_payer always (account prefix base)) ≤ length out.old }
    ensures { Wrote out.old at (spell_payer always (account prefix base)) out.new result }
{
    if account::is_nobody(prefix, base) {
        if always {
            return out::put::put_byte(out, at, b' ');
        }
        return at;
    }
    account_space(out, at, prefix, base)
}

// Writes the line's start: `UHL1`, the date and the name.
fn first_front(out: &mut [u8], at: usize, date: u64, name: &[u8]) -> usize
    requires { at + length (bytes "UHL1" ++ (spell_day date ++ name.now)) ≤ length out.old }
    ensures { Wrote out.old at (bytes "UHL1" ++ (spell_day date ++ name.now)) out.new result }
{
    let e = out::put::put_bytes(out, at, b"UHL1");
    let f = calendar::put_day(out, e, date);
    out::put::put_bytes(out, f, name)
}

// Writes its end: client number, interval, and a rest of zeros.
fn first_back(out: &mut [u8], at: usize, client: u64, from: u64, to: u64) -> usize
    requires { at + length (fixed 10 client ++ (fixed 3 from ++ (fixed 3 to ++ (fixed 12 0 ++ (13 ∷ 10 ∷ []))))) ≤ length out.old }
    ensures { Wrote out.old at (fixed 10 client ++ (fixed 3 from ++ (fixed 3 to ++ (fixed 12 0 ++ (13 ∷ 10 ∷ []))))) out.new result }
{
    let e = numeral::put_fixed(out, at, 10, client);
    let f = numeral::put_fixed(out, e, 3, from);
    let g = numeral::put_fixed(out, f, 3, to);
    out::put::put_bytes(out, g, b"000000000000\r\n")
}

// Writes the first line, and returns the next place.
pub fn put_first(
    out: &mut [u8],
    at: usize,
    sh: Sheet,
    date: u64,
    name: &[u8],
    client: u64,
    from: u64,
    to: u64,
) -> usize
    requires { at + length (spell_first sh (record { date = date; name = name.now; client = client; from = from; to = to }) ++ (13 ∷ 10 ∷ [])) ≤ length out.old }
    ensures { Wrote out.old at (spell_first sh (record { date = date; name = name.now; client = client; from = from; to = to }) ++ (13 ∷ 10 ∷ [])) out.new result }
{
    if sh.header {
        let e = first_front(out, at, date, name);
        return first_back(out, e, client, from, to);
    }
    out::put::put_bytes(out, at, b"UHL1\r\n")
}

// Writes a bank code, which ends its line.
fn code_end(out: &mut [u8], at: usize, code: u64) -> usize
    requires { at + length (fixed 4 code ++ (13 ∷ 10 ∷ [])) ≤ length out.old }
    ensures { Wrote out.old at (fixed 4 code ++ (13 ∷ 10 ∷ [])) out.new result }
{
    let e = numeral::put_fixed(out, at, 4, code);
    out::put::put_bytes(out, e, b"\r\n")
}

// Writes the line that begins an account file: `1 KIND NUMBER BANK`, the bank being the sheet's.
pub fn put_file_line(out: &mut [u8], at: usize, sh: Sheet, kind: u64, number: u64) -> usize
    requires { at + length (spell_file sh kind number ++ (13 ∷ 10 ∷ [])) ≤ length out.old }
    ensures { Wrote out.old at (spell_file sh kind number ++ (13 ∷ 10 ∷ [])) out.new result }
{
    let e = out::put::put_bytes(out, at, b"1 ");
    let f = fixed_space(out, e, 4, kind);
    let g = fixed_space(out, f, 6, number);
    code_end(out, g, sh.bank_code())
}

// Writes a day, which ends its line.
fn day_end(out: &mut [u8], at: usize, date: u64) -> usize
    requires { at + length (spell_day date ++ (13 ∷ 10 ∷ [])) ≤ length out.old }
    ensures { Wrote out.old at (spell_day date ++ (13 ∷ 10 ∷ [])) out.new result }
{
    let e = calendar::put_day(out, at, date);
    out::put::put_bytes(out, e, b"\r\n")
}

// Writes the line that begins a group: `2 PAYER TOTAL DATE`.
pub fn put_group_line(
    out: &mut [u8],
    at: usize,
    sh: Sheet,
    prefix: u64,
    base: u64,
    total: u64,
    date: u64,
) -> usize
    requires { at + length (spell_group sh (account prefix base) total date ++ (13 ∷ 10 ∷ [])) ≤ length out.old }
    ensures { Wrote out.old at (spell_group sh (account prefix base) total date ++ (13 ∷ 10 ∷ [])) out.new result }
{
    let e = out::put::put_bytes(out, at, b"2 ");
    let f = put_payer(out, e, sh.emptypayer, prefix, base);
    let g = number_space(out, f, total);
    day_end(out, g, date)
}

// Writes the line that closes a group (`3 +`) or an account file (`5 +`): `digit` is the first byte.
pub fn put_close(out: &mut [u8], at: usize, digit: u8) -> usize
    requires { at + length (spell_close digit ++ (13 ∷ 10 ∷ [])) ≤ length out.old }
    ensures { Wrote out.old at (spell_close digit ++ (13 ∷ 10 ∷ [])) out.new result }
{
    let e = out::put::put_byte(out, at, digit);
    out::put::put_bytes(out, e, b" +\r\n")
}
