use bits::BitRegister;
use calls::{Answer, Listener, Lists};
use edge::filled;
use label::{Count, Either};
use plan::{Junction, Refusal, TurnedDown};
use printer::print_visit;
use std::alloc::{AllocError, Global};
use std::test::Fail;
use std::{env, fs};
use visit::{Listing, Maker, visit};

// Makes bit registers, each in memory of its own, and promises nothing of them. It keeps the n that it
// was asked for last.
#[derive(Drop)]
struct Bits {
    heap: Global,
    asked: u16,
}

// A maker that is lent to its visit: it gives itself back where it is turned down.
impl Maker for &mut Bits {
    type Made = BitRegister;

    ghost makes = { λ _ _ _. Unit {0} };

    fn make(self, n: u16) -> Result<BitRegister, TurnedDown<Self>> {
        self.asked = n;
        let made = match filled(self.heap, 0, 8 * 512) {
            Ok(memory) => BitRegister::new(n, memory).map_err(|turned| turned.refusal),
            Err(_) => Err(Refusal::ShortMemory),
        };
        made.map_err(|refusal| TurnedDown {
            refusal,
            memory: self,
        })
    }
}

// Keeps each answer as the lines of a listing, and promises nothing of what it was told.
#[derive(Drop)]
struct Tape {
    heap: Global,
    text: String,
}

impl Listener for Tape {
    type Error = AllocError;

    ghost log = { λ _ _. Unit {0} };

    fn hear(&mut self, answer: Answer, lists: Lists<'_>) -> Result<(), AllocError> {
        let listing = Listing { answer, lists };
        let lines = format!(in self.heap; "{listing}")?;
        self.text.push_str(lines.as_str())
    }
}

#[test]
fn visits_line_by_line(rt: HostRuntime) -> Result<(), Fail> {
    let heap = rt.alloc();
    let sheet =
        "J 1 2\nN 513\nN 4\nN 4\nJ 1 2\nJ 2 3\nJ 3 4\nJ 4 1\nL\nK\nS 4\nL\nJ 4 2\nO 4\nC 1 3";
    let lines =
        "no 7\nno 1\nok\nno 7\nok\nok\nok\nok\norder 3 4 2 1\nfill 1 cells 5\nring 1 2 3 4\norder 4 3 2 1\nfill 1 cells 5\nring 1 2 3 4\nok\norder 4 3 2 1\nfill 0 cells 2\nring none\nno 11\nok\nno 13\n";
    let mut maker = Bits { heap, asked: 0 };
    let mut tape = Tape {
        heap,
        text: String::new(heap),
    };
    let mut places = filled(heap, Junction(0), 4)?;
    let mut ring = filled(heap, Junction(0), 4)?;
    let mut rows = filled(heap, 0, 32)?;
    let mut labels = filled(heap, Either::Second(Count(0)), 4)?;
    let mut scratch = filled(heap, 0, 8)?;
    let heard = visit(
        sheet.as_bytes(),
        &mut maker,
        &mut tape,
        &mut places,
        &mut ring,
        &mut rows,
        &mut labels,
        &mut scratch,
    );
    assert!(rt; heard.is_ok());
    assert!(rt; tape.text.as_str() == lines);
    Ok(())
}

// A test is run with its own name as its one argument, so that it can write the file that it names.
#[test]
fn prints_the_visit_of_a_file(rt: HostRuntime) -> Result<(), Fail> {
    let name = env::args(&rt)?.nth(1);
    assert!(rt; name.is_some());
    let name = name.unwrap_or(String::new(rt.alloc()));
    fs::write(&rt, name.as_str(), "J 1 2\nN 513\nN 4\nJ 1 2\nN 5\n")?;
    let mut maker = Bits {
        heap: rt.alloc(),
        asked: 0,
    };
    let printed = print_visit(&rt, &mut maker);
    fs::remove_file(&rt, name.as_str())?;
    assert!(rt; printed.is_ok());
    // The line `N 5` came after the set was made, and is no call then.
    assert_eq!(rt; maker.asked, 4);
    Ok(())
}
