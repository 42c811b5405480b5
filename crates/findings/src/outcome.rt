// What a pass over a file came to: how many findings there are, and the findings themselves.
ghost use Rattle.std.specs.Prelude.{◌≡◌, true};
ghost use Rattle.sheet.proofs.Laws.{Sane};
ghost use Rattle.paper.specs.Days.{real_day};
ghost use Rattle.numeral.specs.counted.Counted.{Counted};
ghost use Rattle.listing.specs.Listed.{listed};
ghost use Rattle.tracing.specs.file.Comes.{Comes};
ghost use Rattle.findings.specs.Findings.{findings};
ghost use Rattle.findings.specs.outcome.Counts.{count_in, refused_in};

use listing::Telling;
use tracing::file::Outcome;

// How many findings there are: the one, or as many as there are warnings.
pub fn count_of(o: Outcome) -> u64
    ensures { result ≡ count_in o }
{
    match o {
        Err(_) => 1,
        Ok(tallied) => tallied.warnings,
    }
}

// 1 of a refused file, 0 of an accepted one.
pub fn refused_of(o: Outcome) -> u64
    ensures { result ≡ refused_in o }
{
    match o {
        Err(_) => 1,
        Ok(_) => 0,
    }
}

// The findings, one after the other. A file that warns of nothing is not gone over again.
pub fn put_findings(out: &mut [u8], to: usize, t: Telling, f: &[u8], o: Outcome) -> usize
    requires sane { Sane t.sheet × (real_day t.today ≡ true) }
    requires comes { Comes t.sheet t.today f.now o }
    ensures { Counted out.old to (listed t f.now (findings t.sheet t.today f.now)) out.new result }
{
    match o {
        Err(x) => listing::put_finding(out, to, t, f, x),
        Ok(tallied) => {
            if tallied.warnings == 0 {
                return to;
            }
            tracing::warnings::put_warnings(out, to, t, f)
        }
    }
}
