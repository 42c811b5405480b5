// Judges fields, takes them and spells them canonically. Each line of standard input has a field, and behind a space a sheet's letter and
// the field's, as `19-19 KA`: A an account, M an item's amount, D a due date (today is 1 January 2018), B a bank field. It is answered
// by the canonical spelling, or by the number of the refusal.
#![tactic(auto)]

use calendar::term::Banks;
use refusal::Refusal;
use sheet::Sheet;

const TODAY: u64 = 20180101;

fn refused(refusal: Refusal) {
    io::write_all(1, b"refused ");
    io::print_decimal(1, refusal.number());
}

fn show_account(sh: Sheet, f: &[u8]) -> Result<(), Refusal> {
    let end = account::at::judge_account(f, 0, sh.joined, sh.basemin)?;
    if end < f.len() {
        let a = account::at::take_account(f, 0, sh.joined, sh.basemin);
        spell_account(a.prefix, a.base);
    }
    Ok(())
}

fn spell_account(prefix: u64, base: u64) {
    let mut out = [0; 64];
    if account::account_len(prefix, base) <= 64 {
        let end = account::put_account(&mut out, 0, prefix, base);
        io::write_all(1, &out[0..end]);
    }
}

fn show_amount(sh: Sheet, f: &[u8]) -> Result<(), Refusal> {
    let limits = sh.limits();
    let most = limits.digits;
    if most <= 19 {
        let amount = amount::at::amount_at(f, 0, sh.comma, most, limits.amount)?;
        io::print_decimal(1, amount.value);
    }
    Ok(())
}

fn show_date(sh: Sheet, f: &[u8]) -> Result<(), Refusal> {
    if calendar::real_day(TODAY) {
        let limits = sh.limits();
        let day = calendar::at::due_at(f, 0, sh.longdate, true, sh.early, limits.ahead, TODAY)?;
        let mut out = [0; 6];
        calendar::put_day(&mut out, 0, day.value);
        io::write_all(1, &out);
    }
    Ok(())
}

fn show_bank(sh: Sheet, f: &[u8]) -> Result<(), Refusal> {
    let judged = bank::at::judge_bank(f, 0, sh.priority, sh.bank_code(), Banks::Any)?;
    let x = bank::at::take_bank(f, 0, sh.priority);
    spell_bank(x.bank, x.constant, x.priority);
    if 0 < judged.warnings {
        io::write_all(1, b" (with a warning)");
    }
    Ok(())
}

fn spell_bank(bank: u64, constant: u64, priority: u64) {
    let mut out = [0; 64];
    if bank::bank_len(priority) <= 64 && bank <= 9999 && constant <= 9999 && priority <= 9 {
        let end = bank::put_bank(&mut out, 0, bank, constant, priority);
        io::write_all(1, &out[0..end]);
    }
}

// Shows a field by the letters of a sheet and of the field.
fn show(letter: u8, what: u8, f: &[u8]) -> Result<(), Refusal> {
    let sh = sheet::sheet_by(letter).ok_or(Refusal::BadSheet)?;
    match what {
        b'A' => show_account(sh, f),
        b'B' => show_bank(sh, f),
        b'D' => show_date(sh, f),
        b'M' => show_amount(sh, f),
        _ => {
            io::write_all(1, b"no such field");
            Ok(())
        }
    }
}

fn answer(line: &[u8]) {
    let end = scan::line::field_end(line, 0);
    if line.len() - end < 3 {
        io::write_all(1, b"no such field\n");
        return;
    }
    if let Err(refusal) = show(line[end + 1], line[end + 2], line) {
        refused(refusal);
    }
    io::write_all(1, b"\n");
}

fn main() {
    let mut buf = io::buffer();
    let n = io::read_full(0, &mut buf);
    let input = &buf[0..n];
    let mut at = 0;
    while at < input.len() {
        let cut = scan::line::next_line(input, at);
        let stop = cut.stop;
        answer(&input[at..stop]);
        at = cut.next;
    }
}
