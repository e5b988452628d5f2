//! A command and a reply as C has them.
ghost use Rattle.std.specs.Prelude.{◌≡◌, Ok, Some, [], ◌∷◌};
ghost use Rattle.std.specs.List.{repeat};
ghost use Rattle.ksm_base.specs.declared.page.TheConstants.{PAGE_WORDS};
ghost use Rattle.ksm_ffi.specs.Requests.{IsMade, LeavesMade, TellsFault, TellsMade, answered, commanded};
ghost use Rattle.ksm_ffi.specs.Requests.{fault_answer, node_of};

use crate::answer::Answer;
use ksm_base::{Command, Fault, GuestPage, Knob, PAGE_WORDS, PageBytes, Reply};

/// The kind that sets the knob of number 0; the others follow by their numbers.
const FIRST_SETTING: u16 = 10;

/// A command. `kind` tells which, and so which of the other fields count.
#[repr(C)]
#[derive(Clone, Copy)]
pub struct Request {
    pub kind: u16,
    /// Of a page, or of all pages of the guest.
    pub guest: u16,
    pub page: u32,
    /// How many visits a scan makes.
    pub visits: u64,
    pub node: u32,
    /// The value of a knob, or the place of a dup.
    pub value: u32,
    pub bytes: PageBytes,
}

impl Request {
    /// A command as C has it. The fields that its kind does not name are 0.
    pub fn of(command: Command) -> Request
        ensures { commanded result ≡ Some command }
    {
        let none = Request::of_value(5, 0);
        match command {
            Command::Register { page, node, bytes } => Request {
                node,
                bytes,
                ..Request::of_page(1, page)
            },
            Command::Drop { page } => Request::of_page(2, page),
            Command::Store { page, bytes } => Request {
                bytes,
                ..Request::of_page(3, page)
            },
            Command::Scan { visits } => Request {
                kind: 4,
                visits,
                ..none
            },
            Command::Prune => none,
            Command::Unmerge { guest } => Request {
                kind: 6,
                guest,
                ..none
            },
            Command::Mergeable { guest } => Request {
                kind: 7,
                guest,
                ..none
            },
            Command::MovePage { page, node } => Request {
                node,
                ..Request::of_page(8, page)
            },
            Command::MoveDup { place, node } => Request {
                node,
                ..Request::of_value(9, place)
            },
            _ => match Knob::set_by(&command) {
                Some((knob, value)) => Request::of_value(FIRST_SETTING + knob.number(), value),
                None => none,
            },
        }
    }

    fn of_page(kind: u16, page: GuestPage) -> Request
        ensures { result ≡ record {
          kind = kind;
          guest = page.guest;
          page = page.page;
          visits = 0;
          node = 0;
          value = 0;
          bytes = repeat PAGE_WORDS (0 ∷ []);
        } }
    {
        Request {
            guest: page.guest,
            page: page.page,
            ..Request::of_value(kind, 0)
        }
    }

    fn of_value(kind: u16, value: u32) -> Request
        ensures { result ≡ record {
          kind = kind;
          guest = 0;
          page = 0;
          visits = 0;
          node = 0;
          value = value;
          bytes = repeat PAGE_WORDS (0 ∷ []);
        } }
    {
        Request {
            kind,
            guest: 0,
            page: 0,
            visits: 0,
            node: 0,
            value,
            bytes: [0; PAGE_WORDS],
        }
    }

    /// The command, if there is one of this kind.
    pub fn command(&self) -> Option<Command>
        ensures { result ≡ commanded self.now }
    {
        let Request {
            kind,
            guest,
            page,
            visits,
            node,
            value,
            bytes,
        } = *self;
        let page = GuestPage { guest, page };
        match kind {
            1 => Some(Command::Register { page, node, bytes }),
            2 => Some(Command::Drop { page }),
            3 => Some(Command::Store { page, bytes }),
            4 => Some(Command::Scan { visits }),
            5 => Some(Command::Prune),
            6 => Some(Command::Unmerge { guest }),
            7 => Some(Command::Mergeable { guest }),
            8 => Some(Command::MovePage { page, node }),
            9 => Some(Command::MoveDup { place: value, node }),
            _ => {
                let knob = Knob::numbered(kind.checked_sub(FIRST_SETTING)?)?;
                Some(knob.setting(value))
            }
        }
    }
}

/// What a command did: how many, the number with which it stopped, or 0, and the node of which no frame was free, or 0.
#[repr(C)]
#[derive(Clone, Copy)]
pub struct Made {
    pub count: u64,
    pub stop: u32,
    pub node: u32,
}

// How a fault is answered.
fn fault_answer(fault: Fault) -> Answer
    ensures { result ≡ fault_answer fault }
{
    match fault {
        Fault::Memory => Answer::Memory,
        Fault::UnknownPage => Answer::UnknownPage,
        Fault::AlreadyRegistered => Answer::AlreadyRegistered,
        Fault::NoFrame(_) => Answer::NoFrame,
        Fault::NotRunning => Answer::NotRunning,
        Fault::SharedPages => Answer::SharedPages,
        Fault::BadValue => Answer::BadValue,
        Fault::InUse => Answer::InUse,
        Fault::CrossesNodes => Answer::CrossesNodes,
        Fault::UnknownPlace => Answer::UnknownPlace,
        Fault::BadNode => Answer::BadNode,
    }
}

// The node of which no frame was free, or 0.
fn node_of(fault: Fault) -> u32
    ensures { result ≡ node_of fault }
{
    match fault {
        Fault::NoFrame(node) => node,
        _ => 0,
    }
}

// So many, and where it stopped.
fn so_many(count: u64, stop: Option<Fault>) -> Made
    ensures { IsMade count stop result }
{
    match stop {
        None => Made {
            count,
            stop: 0,
            node: 0,
        },
        Some(fault) => Made {
            count,
            stop: fault_answer(fault).number(),
            node: node_of(fault),
        },
    }
}

impl Made {
    /// Tells what was answered to a command; of a refusal the node of which no frame was free, and else nothing.
    pub fn tell(&mut self, given: Result<Reply, Fault>)
        ensures told { TellsMade given self.new }
        ensures kept { LeavesMade (answered given) self.old self.new }
    {
        match given {
            Ok(reply) => *self = done(reply),
            Err(fault) => self.refuse(fault),
        }
    }

    fn refuse(&mut self, fault: Fault)
        ensures told { TellsFault fault self.new }
        ensures kept { LeavesMade (fault_answer fault) self.old self.new }
    {
        match fault {
            Fault::NoFrame(node) => {
                *self = Made {
                    count: 0,
                    stop: 0,
                    node,
                }
            }
            _ => {}
        }
    }
}

// What a command did that was not refused.
fn done(reply: Reply) -> Made
    ensures { TellsMade (Ok reply) result }
{
    match reply {
        Reply::Done => so_many(0, None),
        Reply::Scanned { visits, stop } => so_many(visits, stop),
        Reply::Pruned(count) => so_many(count, None),
        Reply::Unmerged { pages, stop } => so_many(pages, stop),
    }
}

/// The number by which a command is answered: done, or why it was refused.
pub fn answered(given: Result<Reply, Fault>) -> Answer
    ensures { result ≡ answered given }
{
    match given {
        Ok(_) => Answer::Done,
        Err(fault) => fault_answer(fault),
    }
}
