// The lines up to the first that is in doubt or refused: those of a good trace, but for the last few.
ghost use Rattle.std.specs.Prelude.{◌≡◌};
ghost use Rattle.paper.specs.Reading.{start};
ghost use Rattle.store.specs.Layout.{capacity};
ghost use Rattle.trace.specs.Going.{Going};

use paper::{Choice, Line};

// How far the reading came: the lines listed and passed over, and the place and the number of the line that is next.
#[derive(Clone, Copy)]
pub(crate) struct Way {
    pub listed: usize,
    pub passed: usize,
    pub at: usize,
    pub line: usize,
}

pub(crate) fn lines(
    choice: Choice,
    s: &[u8],
    most: usize,
    store: &mut [u32],
    last: &mut [i64; 64],
) -> Way
    requires { (most ≡ capacity store.old) × (last.old ≡ start.last) }
    ensures { Going choice s.now store.old most store.new last.new result.listed result.passed result.at result.line }
{
    let mut listed: usize = 0;
    let mut passed: usize = 0;
    let mut at: usize = 0;
    let mut n: usize = 1;
    while at < s.len() {
        let here = Way {
            listed,
            passed,
            at,
            line: n,
        };
        let Some((line, next)) = line::quick_line(choice, s, at) else {
            return here;
        };
        match line {
            Line::Refused(_, _) => return here,
            Line::Passed => {
                passed += 1;
                at = next;
                n += 1;
            }
            Line::Listed(r) => {
                let p = r.processor;
                let time = r.time;
                if time < last[p] {
                    return here;
                }
                if most <= listed {
                    return here;
                }
                store::put(store, listed, n, at, r);
                last[p] = time;
                listed += 1;
                at = next;
                n += 1;
            }
        }
    }
    Way {
        listed,
        passed,
        at,
        line: n,
    }
}
