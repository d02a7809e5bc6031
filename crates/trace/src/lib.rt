// A trace read line by line into the records' store. What a line comes to is the crate line's to say; here stand the order of the
// lines, the last listed time of each processor (11), the number of listed records (12), and where the reading ends. The quick loop goes as far
// as it can, and the one here goes on from there, step by step: to the end of a good trace, or to the line that is refused.
#![tactic(auto)]

mod ahead;

ghost use Rattle.trace.specs.Read.{ReadInto};

use paper::{Choice, Fault, Line, Refusal, Site};

// Where the reading ended, and how many lines were listed and passed over up to there.
#[derive(Clone, Copy)]
pub struct Read {
    pub stop: Result<(), Refusal>,
    pub listed: usize,
    pub passed: usize,
}

// The listed records go into the store, as many as it has room for; their places there are their order in the file.
pub fn read_trace(choice: Choice, s: &[u8], store: &mut [u32]) -> Read
    ensures { ReadInto choice s.now store.old result store.new }
{
    let most = store::capacity(store);
    let mut last: [i64; 64] = [-999_999_999_999_999; 64];
    let begun = ahead::lines(choice, s, most, store, &mut last);
    let mut listed = begun.listed;
    let mut passed = begun.passed;
    let mut at = begun.at;
    let mut n = begun.line;
    while at < s.len() {
        let end = octets::find(s, at, 10);
        if end == s.len() {
            let site = Site {
                line: n,
                column: end - at + 1,
            };
            return Read {
                stop: Err(Refusal {
                    fault: Fault::Form,
                    site,
                }),
                listed,
                passed,
            };
        }
        let next = end + 1;
        let below = n + 1;
        match line::read_line(choice, &s[at..end]) {
            Line::Refused(fault, spot) => {
                let site = Site {
                    line: n,
                    column: line::column(&s[at..end], spot),
                };
                return Read {
                    stop: Err(Refusal { fault, site }),
                    listed,
                    passed,
                };
            }
            Line::Passed => {
                passed += 1;
                at = next;
                n = below;
            }
            Line::Listed(r) => {
                let p = r.processor;
                let time = r.time;
                if time < last[p] {
                    let site = Site { line: n, column: 0 };
                    return Read {
                        stop: Err(Refusal {
                            fault: Fault::Backwards,
                            site,
                        }),
                        listed,
                        passed,
                    };
                }
                if most <= listed {
                    let site = Site { line: n, column: 0 };
                    return Read {
                        stop: Err(Refusal {
                            fault: Fault::TooMany,
                            site,
                        }),
                        listed,
                        passed,
                    };
                }
                store::put(store, listed, n, at, r);
                last[p] = time;
                listed += 1;
                at = next;
                n = below;
            }
        }
    }
    Read {
        stop: Ok(()),
        listed,
        passed,
    }
}
