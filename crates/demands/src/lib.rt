// The demands, kept by functions that make the shipped calls: a call made twice answers alike, and what is written is read back.
#![tactic(auto)]

ghost use Rattle.std.specs.Prelude.{◌≡◌, ◌≤◌, ◌<◌, length, take};
ghost use Rattle.paper.specs.Reading.{read_answer, rows_after};
ghost use Rattle.read.specs.Told.{told as told_read};
ghost use Rattle.write.specs.Told.{header_of};
ghost use Rattle.outcomes.specs.Outcomes.{ComesBack};
ghost use Rattle.gpc.specs.Answers.{statement_answer, statement_rows};
ghost use Rattle.gpcwhole.specs.Outcomes.{ComesBack as StatementsComeBack};
ghost use Rattle.statement.specs.reading.Told.{told as told_statement};
ghost use Rattle.register.specs.Register.{answer};
ghost use Rattle.register.specs.Told.{told_answer as told_register};

use explain::AboText;
use findings::AboList;
use read::AboAnswer;
use reader::AboLine;
use register::AboRegister;
use statement::reading::AboStatement;
use write::AboWritten;

// two answers of reading
#[derive(Clone, Copy)]
pub struct TwoReadings {
    pub first: AboAnswer,
    pub second: AboAnswer,
}

// Reads a file twice, into rows that were lent alike.
pub fn read_twice(file: &[u8], sheet: u64, today: u64, a: &mut [u8], b: &mut [u8]) -> TwoReadings
    requires { a.old ≡ b.old }
    ensures first_value { result.first ≡ result.second }
    ensures a_after { a.new ≡ b.new }
{
    let first = abo::abo_read(file, sheet, today, a);
    let second = abo::abo_read(file, sheet, today, b);
    TwoReadings { first, second }
}

// two answers of writing
#[derive(Clone, Copy)]
pub struct TwoWritings {
    pub first: AboWritten,
    pub second: AboWritten,
}

// a header as writing takes it, but for its name
#[derive(Clone, Copy)]
pub struct Head {
    pub date: u64,
    pub client: u64,
    pub from: u64,
    pub to: u64,
}

// Writes a batch twice, into outputs that were lent alike.
pub fn write_twice(
    rows: &[u8],
    texts: &[u8],
    head: Head,
    name: &[u8],
    sheet: u64,
    today: u64,
    a: &mut [u8],
    b: &mut [u8],
) -> TwoWritings
    requires { a.old ≡ b.old }
    ensures first_value { result.first ≡ result.second }
    ensures a_after { a.new ≡ b.new }
{
    let first = abo::abo_write(
        rows,
        texts,
        head.date,
        name,
        head.client,
        head.from,
        head.to,
        sheet,
        today,
        a,
    );
    let second = abo::abo_write(
        rows,
        texts,
        head.date,
        name,
        head.client,
        head.from,
        head.to,
        sheet,
        today,
        b,
    );
    TwoWritings { first, second }
}

// two answers of explaining
#[derive(Clone, Copy)]
pub struct TwoTexts {
    pub first: AboText,
    pub second: AboText,
}

// Explains a file twice, into outputs that were lent alike.
pub fn explain_twice(file: &[u8], sheet: u64, today: u64, a: &mut [u8], b: &mut [u8]) -> TwoTexts
    requires { a.old ≡ b.old }
    ensures first_value { result.first ≡ result.second }
    ensures a_after { a.new ≡ b.new }
{
    let first = tell::abo_explain(file, sheet, today, a);
    let second = tell::abo_explain(file, sheet, today, b);
    TwoTexts { first, second }
}

// two answers of listing
#[derive(Clone, Copy)]
pub struct TwoLists {
    pub first: AboList,
    pub second: AboList,
}

// Lists what is found in a file twice, into bytes that were lent alike.
pub fn findings_twice(file: &[u8], sheet: u64, today: u64, a: &mut [u8], b: &mut [u8]) -> TwoLists
    requires { a.old ≡ b.old }
    ensures first_value { result.first ≡ result.second }
    ensures a_after { a.new ≡ b.new }
{
    let first = tell::abo_findings(file, sheet, today, a);
    let second = tell::abo_findings(file, sheet, today, b);
    TwoLists { first, second }
}

// two answers of finding a line
#[derive(Clone, Copy)]
pub struct TwoLines {
    pub first: AboLine,
    pub second: AboLine,
}

// Finds a line twice.
pub fn line_twice(file: &[u8], line: u64) -> TwoLines
    ensures { result.first ≡ result.second }
{
    let first = abo::abo_line(file, line);
    let second = abo::abo_line(file, line);
    TwoLines { first, second }
}

// the answers of writing, and of reading what was written
#[derive(Clone, Copy)]
pub struct Returned {
    pub written: AboWritten,
    pub read: AboAnswer,
}

// Reads the first bytes of an output.
fn read_front(out: &[u8], len: u64, sheet: u64, today: u64, back: &mut [u8]) -> AboAnswer
    requires { len ≤ length out.now }
    ensures result_value { told_read result ≡ read_answer sheet today (take len out.now) back.old }
    ensures back_after { back.new ≡ rows_after sheet today (take len out.now) back.old }
    ensures out_len_bound { length out.now < 18446744073709551616 }
{
    let n = len as usize;
    abo::abo_read(&out[..n], sheet, today, back)
}

// Writes a batch, and reads the written file on the same sheet and day; of a batch that is refused, no bytes.
pub fn write_and_read(
    rows: &[u8],
    texts: &[u8],
    head: Head,
    name: &[u8],
    sheet: u64,
    today: u64,
    out: &mut [u8],
    back: &mut [u8],
) -> Returned
    ensures { result.written.number ≡ 0 → ComesBack sheet today (header_of head.date name.now head.client head.from head.to) rows.now texts.now (take result.written.bytes out.new) back.old (told_read result.read) back.new }
{
    let written = abo::abo_write(
        rows,
        texts,
        head.date,
        name,
        head.client,
        head.from,
        head.to,
        sheet,
        today,
        out,
    );
    if written.number != 0 {
        let read = read_front(out, 0, sheet, today, back);
        return Returned { written, read };
    }
    let read = read_front(out, written.bytes, sheet, today, back);
    Returned { written, read }
}

// ---- statements

// two answers of reading statements
#[derive(Clone, Copy)]
pub struct TwoStatementReadings {
    pub first: AboStatement,
    pub second: AboStatement,
}

// Reads a file of statements twice, into rows that were lent alike.
pub fn statement_read_twice(file: &[u8], a: &mut [u8], b: &mut [u8]) -> TwoStatementReadings
    requires { a.old ≡ b.old }
    ensures first_value { result.first ≡ result.second }
    ensures a_after { a.new ≡ b.new }
{
    let first = abo::abo_statement_read(file, a);
    let second = abo::abo_statement_read(file, b);
    TwoStatementReadings { first, second }
}

// Writes statements twice, into outputs that were lent alike.
pub fn statement_write_twice(rows: &[u8], a: &mut [u8], b: &mut [u8]) -> TwoWritings
    requires { a.old ≡ b.old }
    ensures first_value { result.first ≡ result.second }
    ensures a_after { a.new ≡ b.new }
{
    let first = abo::abo_statement_write(rows, a);
    let second = abo::abo_statement_write(rows, b);
    TwoWritings { first, second }
}

// the answers of writing statements, and of reading what was written
#[derive(Clone, Copy)]
pub struct StatementsReturned {
    pub written: AboWritten,
    pub read: AboStatement,
}

// Reads the first bytes of an output as statements.
fn statement_read_front(out: &[u8], len: u64, back: &mut [u8]) -> AboStatement
    requires { len ≤ length out.now }
    ensures result_value { told_statement result ≡ statement_answer (take len out.now) back.old }
    ensures back_after { back.new ≡ statement_rows (take len out.now) back.old }
{
    let n = len as usize;
    abo::abo_statement_read(&out[..n], back)
}

// Writes statements, and reads the written file; of rows that are refused, no bytes.
pub fn statement_write_and_read(rows: &[u8], out: &mut [u8], back: &mut [u8]) -> StatementsReturned
    ensures { result.written.number ≡ 0 → StatementsComeBack rows.now (take result.written.bytes out.new) back.old (told_statement result.read) back.new }
{
    let written = abo::abo_statement_write(rows, out);
    if written.number != 0 {
        let read = statement_read_front(out, 0, back);
        return StatementsReturned { written, read };
    }
    let read = statement_read_front(out, written.bytes, back);
    StatementsReturned { written, read }
}

// ---- the day's numbers

// two answers of reading against a register
#[derive(Clone, Copy)]
pub struct TwoRegisteredReadings {
    pub first: AboAnswer,
    pub second: AboAnswer,
}

// Reads a file twice, into rows and against registers that were lent alike.
pub fn read_registered_twice(
    file: &[u8],
    sheet: u64,
    today: u64,
    a: &mut [u8],
    b: &mut [u8],
    c: &mut [u8],
    d: &mut [u8],
) -> TwoRegisteredReadings
    requires a_value { a.old ≡ b.old }
    requires c_value { c.old ≡ d.old }
    ensures first_value { result.first ≡ result.second }
    ensures a_after { a.new ≡ b.new }
    ensures c_after { c.new ≡ d.new }
{
    let first = enrol::abo_read_registered(file, sheet, today, a, c);
    let second = enrol::abo_read_registered(file, sheet, today, b, d);
    TwoRegisteredReadings { first, second }
}

// two answers of the calls on a register
#[derive(Clone, Copy)]
pub struct TwoRegisters {
    pub first: AboRegister,
    pub second: AboRegister,
}

// Starts a day twice, in registers that were lent alike.
pub fn register_start_twice(date: u64, a: &mut [u8], b: &mut [u8]) -> TwoRegisters
    requires { a.old ≡ b.old }
    ensures first_value { result.first ≡ result.second }
    ensures a_after { a.new ≡ b.new }
{
    let first = enrol::abo_register_start(date, a);
    let second = enrol::abo_register_start(date, b);
    TwoRegisters { first, second }
}

// Asks for the lowest free number twice.
pub fn register_lowest_twice(register: &[u8]) -> TwoRegisters
    ensures { result.first ≡ result.second }
{
    let first = enrol::abo_register_lowest(register);
    let second = enrol::abo_register_lowest(register);
    TwoRegisters { first, second }
}

// Asks how many numbers are free twice.
pub fn register_free_twice(register: &[u8]) -> TwoRegisters
    ensures { result.first ≡ result.second }
{
    let first = enrol::abo_register_free(register);
    let second = enrol::abo_register_free(register);
    TwoRegisters { first, second }
}

// Gives a number back twice, to registers that were lent alike.
pub fn register_give_back_twice(a: &mut [u8], b: &mut [u8], number: u64) -> TwoRegisters
    requires { a.old ≡ b.old }
    ensures first_value { result.first ≡ result.second }
    ensures a_after { a.new ≡ b.new }
{
    let first = enrol::abo_register_give_back(a, number);
    let second = enrol::abo_register_give_back(b, number);
    TwoRegisters { first, second }
}

// the answers of a call on a register, and of the two questions behind it
#[derive(Clone, Copy)]
pub struct Asked {
    pub done: AboRegister,
    pub lowest: AboRegister,
    pub free: AboRegister,
}

// Starts a day, and asks: all numbers are free, and the lowest is 0.
pub fn start_and_ask(date: u64, register: &mut [u8]) -> Asked
    ensures { result.done.number ≡ 0 → (told_register result.lowest ≡ answer 0 0) × (told_register result.free ≡ answer 0 1000) }
{
    let done = enrol::abo_register_start(date, register);
    let lowest = enrol::abo_register_lowest(register);
    let free = enrol::abo_register_free(register);
    Asked { done, lowest, free }
}

// Gives a number back, and asks: the lowest free one is not above it, and one or more are free.
pub fn give_back_and_ask(register: &mut [u8], number: u64) -> Asked
    ensures { result.done.number ≡ 0 → (result.lowest.number ≡ 0) × (result.lowest.value ≤ number) × (result.free.number ≡ 0) × (1 ≤ result.free.value) }
{
    let done = enrol::abo_register_give_back(register, number);
    let lowest = enrol::abo_register_lowest(register);
    let free = enrol::abo_register_free(register);
    Asked { done, lowest, free }
}
