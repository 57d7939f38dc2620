//! What a sheet is read into, and what reading one came to, as numbers.
use sheet::contents::Contents;
use sheet::fault::SheetFault;
use sheet::lent::Lists;
use sheet::read::read_sheet;
use site::room::SiteRoom;
use site::site::Site;
use std::alloc::Global;
use std::process::Abort;
use std::test::*;
use text::number::Number;
use text::records::{FaultLine, LinkLine, TurnLine};

/// A refusal's number, and its line.
#[derive(Clone, Copy, PartialEq, Eq, Debug)]
pub struct Refused {
    pub number: u8,
    pub line: usize,
}

/// What a sheet comes to: it is accepted, or refused.
pub type Answer = Result<(), Refused>;

/// A list or a page is too short.
pub const NO_ROOM: Answer = Err(Refused {
    number: 14,
    line: 0,
});

/// Lists and a site's place for sheets.
#[derive(Drop)]
pub struct Desk {
    pub heap: Global,
    pub links: Vec<LinkLine>,
    pub faults: Vec<FaultLine>,
    pub turns: Vec<TurnLine>,
    pub site: Option<Site>,
}

/// A number of at most five digits; 0 for more.
pub fn number(value: u32) -> Number {
    Number::new(value).unwrap_or(Number::zero())
}

/// A link line of these ends.
pub fn link(a: u32, b: u32) -> LinkLine {
    LinkLine {
        a: number(a),
        b: number(b),
    }
}

/// A fault line of this register and value.
pub fn fault(register: u32, value: u32) -> FaultLine {
    FaultLine {
        register: number(register),
        value: number(value),
    }
}

/// A turn line of this node.
pub fn turn(node: u32) -> TurnLine {
    TurnLine { node: number(node) }
}

/// Contents numbers: nodes, links, faults, turns.
pub fn contents(numbers: [u32; 4]) -> Contents {
    let [nodes, links, faults, turns] = numbers;
    Contents {
        nodes: number(nodes),
        links: number(links),
        faults: number(faults),
        turns: number(turns),
    }
}

// By hand: the tests do not lean on `cause` and `line`.
/// The numbers of a fault.
impl From<SheetFault> for Refused {
    fn from(fault: SheetFault) -> Refused {
        match fault {
            SheetFault::Scan(e) => Refused {
                number: 1,
                line: e.line(),
            },
            SheetFault::Refused(e, line) => Refused {
                number: e.number(),
                line,
            },
        }
    }
}

impl Desk {
    /// Lists of so many entries, none of them 0, and no site.
    pub fn sized(heap: Global, links: usize, faults: usize, turns: usize) -> Result<Desk, Fail> {
        Ok(Desk {
            heap,
            links: vec![in heap; link(7, 7); links]?,
            faults: vec![in heap; fault(7, 7); faults]?,
            turns: vec![in heap; turn(7); turns]?,
            site: None,
        })
    }

    /// Lists with their limits' entries.
    pub fn new(heap: Global) -> Result<Desk, Fail> {
        Desk::sized(heap, 1024, 4096, 1024)
    }

    /// What reading a sheet answers: its contents, if it is accepted.
    pub fn read(&mut self, bytes: &[u8]) -> Result<Result<Contents, Refused>, Fail> {
        let room = SiteRoom::new(self.heap)?;
        let lists = Lists {
            links: &mut self.links,
            faults: &mut self.faults,
            turns: &mut self.turns,
        };
        Ok(read_sheet(bytes, lists, room, &mut self.site).map_err(Refused::from))
    }

    /// What reading a sheet answers, once it is seen that every entry past the read ones is 0.
    pub fn answer(&mut self, rt: &impl Abort, bytes: &[u8]) -> Result<Answer, Fail> {
        let read = self.read(bytes)?;
        let ns = read.unwrap_or(contents([0; 4]));
        assert!(rt; self.is_clear(ns));
        Ok(read.map(|_| ()))
    }

    /// Whether every entry past those that the contents count is 0.
    pub fn is_clear(&self, ns: Contents) -> bool {
        let mut links = self.links.iter().skip(ns.links.get() as usize);
        let mut faults = self.faults.iter().skip(ns.faults.get() as usize);
        let mut turns = self.turns.iter().skip(ns.turns.get() as usize);
        links.all(|x| x.a.get() == 0 && x.b.get() == 0)
            && faults.all(|x| x.register.get() == 0 && x.value.get() == 0)
            && turns.all(|x| x.node.get() == 0)
    }

    /// Whether no entry of the lists is 0.
    pub fn is_full(&self) -> bool {
        self.links.iter().all(|x| x.a.get() != 0 && x.b.get() != 0)
            && self
                .faults
                .iter()
                .all(|x| x.register.get() != 0 && x.value.get() != 0)
            && self.turns.iter().all(|x| x.node.get() != 0)
    }
}
