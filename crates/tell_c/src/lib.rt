// What a C program links of `tell`: each of its calls under the same name and contract. They are compiled by themselves: in one unit with reading,
// what both use would have two callers, and the compiler would keep it apart from reading's loops.
#![tactic(auto)]

ghost use Rattle.std.specs.Prelude.{◌≡◌, length};
ghost use Rattle.paper.specs.Writing.{written_in, output_after};
ghost use Rattle.explain.specs.Explanation.{explanation};
ghost use Rattle.explain.specs.Told.{told as told_text, text_answer};
ghost use Rattle.findings.specs.Lists.{list_answer, list_after};
ghost use Rattle.findings.specs.Told.{told as told_list};

use explain::AboText;
use findings::AboList;

// Lists what is found in a file as numbers, 64 bytes a finding, and which sheets accept it. A refusal leaves the lent bytes as they were.
#[unsafe(no_mangle)]
pub extern "C" fn abo_findings(file: &[u8], sheet: u64, today: u64, out: &mut [u8]) -> AboList
    ensures result_value { told_list result ≡ list_answer sheet today file.now out.old }
    ensures out_after { out.new ≡ list_after sheet today file.now out.old }
{
    tell::abo_findings(file, sheet, today, out)
}

// Says in sentences what is found in a file: why it is refused, or what it warns of, and what each sheet says of it. A refusal leaves the output as it was.
#[unsafe(no_mangle)]
pub extern "C" fn abo_explain(file: &[u8], sheet: u64, today: u64, out: &mut [u8]) -> AboText
    ensures result_value { told_text result ≡ text_answer (written_in (length out.old) (explanation sheet today file.now)) }
    ensures out_after { out.new ≡ output_after out.old (explanation sheet today file.now) }
{
    tell::abo_explain(file, sheet, today, out)
}
