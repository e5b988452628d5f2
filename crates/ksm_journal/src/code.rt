//! What the journal keeps of an entry: the command in eight bytes, and the answer in one.

ghost use Rattle.std.specs.Prelude.{◌≡◌, ℕ, Ok, Err, IfSome, length, true, false};
ghost use Rattle.ksm_journal.specs.Coding.{IsInside, answer_of, command_beside, command_of, entry_of, full, is_beside, is_whole, tells_all};

use ksm_base::{Command, Fault, GuestPage, Knob, PAGE_WORDS, PageBytes, Reply};

/// Which command it is, and where its parts stand. A page stands in `guest` and `number`, the one byte of its bytes in
/// `byte`.
#[derive(Clone, Copy)]
pub(crate) enum CommandKind {
    /// A store of a page full of one byte.
    Storing,
    /// A registering of a page full of one byte on node 0; the next three on nodes 1 to 3.
    Registering0,
    Registering1,
    Registering2,
    Registering3,
    Dropping,
    /// The visits are `number`.
    Scanning,
    /// The command has no part; `number` is how many dups went.
    Pruning,
    /// `number` is how many pages got a frame.
    Unmerging,
    MakingMergeable,
    /// The node is `byte`.
    MovingPage,
    /// The place is `number`, the node is `byte`.
    MovingDup,
    /// The value is `byte`; `number` is how many pages got a frame.
    SettingRun,
    /// The number of the knob, which is not `run`, is `byte`; the value is `number`.
    Setting,
    /// A store of other bytes: the page and its bytes are row `number` of the pages.
    StoringPage,
    /// A registering with other bytes, on node `byte`: the page and its bytes are row `number` of the pages.
    RegisteringPage,
    /// Command and answer are row `number` of the whole entries.
    Whole,
}

/// A command as it is kept.
#[derive(Clone, Copy)]
pub(crate) struct CommandCode {
    pub kind: CommandKind,
    pub byte: u8,
    pub guest: u16,
    pub number: u32,
}

/// An answer as it is kept. The number that it tells is the one in the code of its command.
#[derive(Clone, Copy)]
pub(crate) enum AnswerCode {
    AllDone,
    PageUnknown,
    PageKnown,
    /// No frame on node 0; the next three on nodes 1 to 3.
    FrameMissing0,
    FrameMissing1,
    FrameMissing2,
    FrameMissing3,
    ScanStands,
    PagesShared,
    ValueOutOfRange,
    DupInUse,
    NodesCrossed,
    PlaceUnknown,
    NodeUnknown,
    /// All visits were made, as many as the number tells.
    NumberScanned,
    /// No visit was made, as no page is mergeable.
    NoneScanned,
    NumberPruned,
    NumberUnmerged,
}

/// A page with its bytes, for an entry that has no room for them.
#[derive(Clone, Copy)]
pub(crate) struct StoredPage {
    pub page: GuestPage,
    pub bytes: PageBytes,
}

/// The byte that a page is full of, if all its bytes are equal.
fn one_byte(bytes: &PageBytes) -> Option<u8>
    ensures { IfSome result (λ byte. bytes.now ≡ full byte) }
{
    let byte = (bytes[0] % 256) as u8;
    if *bytes == filled(byte) {
        Some(byte)
    } else {
        None
    }
}

/// A page full of one byte.
fn filled(byte: u8) -> PageBytes
    ensures { result ≡ full byte }
{
    [u64::from(byte) * 0x0101_0101_0101_0101; PAGE_WORDS]
}

/// How many pages or dups an answer tells of: 0 where it tells of none, or where the number has more than 32 bits.
fn count_of(answer: &Result<Reply, Fault>) -> u32 {
    match *answer {
        Ok(Reply::Pruned(dups)) => u32::try_from(dups).unwrap_or(0),
        Ok(Reply::Unmerged { pages, stop: _ }) => u32::try_from(pages).unwrap_or(0),
        _ => 0,
    }
}

impl CommandCode {
    fn of_page(kind: CommandKind, byte: u8, page: GuestPage) -> CommandCode
        ensures { result ≡ record { kind = kind; byte = byte; guest = page.guest; number = page.page } }
    {
        CommandCode {
            kind,
            byte,
            guest: page.guest,
            number: page.page,
        }
    }

    fn of_number(kind: CommandKind, byte: u8, number: u32) -> CommandCode
        ensures { result ≡ record { kind = kind; byte = byte; guest = 0; number = number } }
    {
        CommandCode {
            kind,
            byte,
            guest: 0,
            number,
        }
    }

    /// The code of a command, if it has room for it; where the command has no number, the answer's is kept in its
    /// place.
    fn of(command: &Command, answer: &Result<Reply, Fault>) -> Option<CommandCode>
        ensures all { IfSome result (λ code. tells_all code.kind ≡ true) }
        ensures command { IfSome result (λ code. command_of code.kind code ≡ command.now) }
    {
        let code = match *command {
            Command::Register { page, node, bytes } => {
                let kind = match node {
                    0 => CommandKind::Registering0,
                    1 => CommandKind::Registering1,
                    2 => CommandKind::Registering2,
                    3 => CommandKind::Registering3,
                    _ => return None,
                };
                CommandCode::of_page(kind, one_byte(&bytes)?, page)
            }
            Command::Drop { page } => CommandCode::of_page(CommandKind::Dropping, 0, page),
            Command::Store { page, bytes } => {
                CommandCode::of_page(CommandKind::Storing, one_byte(&bytes)?, page)
            }
            Command::Scan { visits } => {
                CommandCode::of_number(CommandKind::Scanning, 0, u32::try_from(visits).ok()?)
            }
            Command::Prune => { CommandCode::of_number(CommandKind::Pruning, 0, count_of(answer)) }
            Command::Unmerge { guest } => CommandCode {
                kind: CommandKind::Unmerging,
                byte: 0,
                guest,
                number: count_of(answer),
            },
            Command::Mergeable { guest } => CommandCode {
                kind: CommandKind::MakingMergeable,
                byte: 0,
                guest,
                number: 0,
            },
            Command::MovePage { page, node } => {
                CommandCode::of_page(CommandKind::MovingPage, u8::try_from(node).ok()?, page)
            }
            Command::MoveDup { place, node } => {
                CommandCode::of_number(CommandKind::MovingDup, u8::try_from(node).ok()?, place)
            }
            Command::SetRun(run) => {
                let byte = u8::try_from(run).ok()?;
                CommandCode::of_number(CommandKind::SettingRun, byte, count_of(answer))
            }
            _ => {
                let (knob, value) = Knob::set_by(command)?;
                CommandCode::of_number(CommandKind::Setting, knob.number() as u8, value)
            }
        };
        Some(code)
    }

    fn page(&self) -> GuestPage
        ensures { result ≡ record { guest = self.now.guest; page = self.now.number } }
    {
        GuestPage {
            guest: self.guest,
            page: self.number,
        }
    }

    /// The command of a code that tells all of it.
    fn command(&self) -> Command
        ensures { result ≡ command_of self.now.kind self.now }
    {
        match self.kind {
            CommandKind::Storing => Command::Store {
                page: self.page(),
                bytes: filled(self.byte),
            },
            CommandKind::Registering0 => self.registering(0),
            CommandKind::Registering1 => self.registering(1),
            CommandKind::Registering2 => self.registering(2),
            CommandKind::Registering3 => self.registering(3),
            CommandKind::Dropping => Command::Drop { page: self.page() },
            CommandKind::Scanning => Command::Scan {
                visits: u64::from(self.number),
            },
            CommandKind::Unmerging => Command::Unmerge { guest: self.guest },
            CommandKind::MakingMergeable => Command::Mergeable { guest: self.guest },
            CommandKind::MovingPage => Command::MovePage {
                page: self.page(),
                node: u32::from(self.byte),
            },
            CommandKind::MovingDup => Command::MoveDup {
                place: self.number,
                node: u32::from(self.byte),
            },
            CommandKind::SettingRun => Command::SetRun(u32::from(self.byte)),
            CommandKind::Setting => match Knob::numbered(u16::from(self.byte)) {
                Some(knob) => knob.setting(self.number),
                None => Command::Prune,
            },
            _ => Command::Prune,
        }
    }

    fn registering(&self, node: u32) -> Command
        ensures { result ≡ Command.Register (record { guest = self.now.guest; page = self.now.number }) node (full self.now.byte) }
    {
        Command::Register {
            page: self.page(),
            node,
            bytes: filled(self.byte),
        }
    }
}

impl AnswerCode {
    /// The code of an answer beside a number, if there is one.
    fn of(answer: &Result<Reply, Fault>, number: u32) -> Option<AnswerCode>
        ensures { IfSome result (λ code. answer_of code number ≡ answer.now) }
    {
        match *answer {
            Ok(reply) => AnswerCode::of_reply(reply, number),
            Err(fault) => AnswerCode::of_fault(fault),
        }
    }

    fn of_reply(reply: Reply, number: u32) -> Option<AnswerCode>
        ensures { IfSome result (λ code. answer_of code number ≡ Ok reply) }
    {
        match reply {
            Reply::Done => Some(AnswerCode::AllDone),
            Reply::Scanned { visits, stop: None } => {
                if visits == u64::from(number) {
                    Some(AnswerCode::NumberScanned)
                } else if visits == 0 {
                    Some(AnswerCode::NoneScanned)
                } else {
                    None
                }
            }
            Reply::Pruned(dups) => {
                if dups == u64::from(number) {
                    Some(AnswerCode::NumberPruned)
                } else {
                    None
                }
            }
            Reply::Unmerged { pages, stop: None } => {
                if pages == u64::from(number) {
                    Some(AnswerCode::NumberUnmerged)
                } else {
                    None
                }
            }
            _ => None,
        }
    }

    fn of_fault(fault: Fault) -> Option<AnswerCode>
        ensures { (number : ℕ) → IfSome result (λ code. answer_of code number ≡ Err fault) }
    {
        match fault {
            Fault::Memory => None,
            Fault::UnknownPage => Some(AnswerCode::PageUnknown),
            Fault::AlreadyRegistered => Some(AnswerCode::PageKnown),
            Fault::NoFrame(0) => Some(AnswerCode::FrameMissing0),
            Fault::NoFrame(1) => Some(AnswerCode::FrameMissing1),
            Fault::NoFrame(2) => Some(AnswerCode::FrameMissing2),
            Fault::NoFrame(3) => Some(AnswerCode::FrameMissing3),
            Fault::NoFrame(_) => None,
            Fault::NotRunning => Some(AnswerCode::ScanStands),
            Fault::SharedPages => Some(AnswerCode::PagesShared),
            Fault::BadValue => Some(AnswerCode::ValueOutOfRange),
            Fault::InUse => Some(AnswerCode::DupInUse),
            Fault::CrossesNodes => Some(AnswerCode::NodesCrossed),
            Fault::UnknownPlace => Some(AnswerCode::PlaceUnknown),
            Fault::BadNode => Some(AnswerCode::NodeUnknown),
        }
    }

    /// The answer that the code tells beside a number.
    fn answer(&self, number: u32) -> Result<Reply, Fault>
        ensures { result ≡ answer_of self.now number }
    {
        match self {
            AnswerCode::AllDone => Ok(Reply::Done),
            AnswerCode::PageUnknown => Err(Fault::UnknownPage),
            AnswerCode::PageKnown => Err(Fault::AlreadyRegistered),
            AnswerCode::FrameMissing0 => Err(Fault::NoFrame(0)),
            AnswerCode::FrameMissing1 => Err(Fault::NoFrame(1)),
            AnswerCode::FrameMissing2 => Err(Fault::NoFrame(2)),
            AnswerCode::FrameMissing3 => Err(Fault::NoFrame(3)),
            AnswerCode::ScanStands => Err(Fault::NotRunning),
            AnswerCode::PagesShared => Err(Fault::SharedPages),
            AnswerCode::ValueOutOfRange => Err(Fault::BadValue),
            AnswerCode::DupInUse => Err(Fault::InUse),
            AnswerCode::NodesCrossed => Err(Fault::CrossesNodes),
            AnswerCode::PlaceUnknown => Err(Fault::UnknownPlace),
            AnswerCode::NodeUnknown => Err(Fault::BadNode),
            AnswerCode::NumberScanned => Ok(Reply::Scanned {
                visits: u64::from(number),
                stop: None,
            }),
            AnswerCode::NoneScanned => Ok(Reply::Scanned {
                visits: 0,
                stop: None,
            }),
            AnswerCode::NumberPruned => Ok(Reply::Pruned(u64::from(number))),
            AnswerCode::NumberUnmerged => Ok(Reply::Unmerged {
                pages: u64::from(number),
                stop: None,
            }),
        }
    }
}

/// The codes of an entry, if they tell all of it.
pub(crate) fn short(
    command: &Command,
    answer: &Result<Reply, Fault>,
) -> Option<(CommandCode, AnswerCode)>
    ensures all { IfSome result (λ codes. tells_all codes.0.kind ≡ true) }
    ensures command { IfSome result (λ codes. command_of codes.0.kind codes.0 ≡ command.now) }
    ensures answer { IfSome result (λ codes. answer_of codes.1 codes.0.number ≡ answer.now) }
{
    let code = CommandCode::of(command, answer)?;
    let told = AnswerCode::of(answer, code.number)?;
    Some((code, told))
}

/// The codes of an entry whose page is to stand in row `row` of the pages, with that page; none where the entry has no
/// page to keep there.
pub(crate) fn beside(
    command: &Command,
    answer: &Result<Reply, Fault>,
    row: u32,
) -> Option<(CommandCode, AnswerCode, StoredPage)>
    ensures row { IfSome result (λ codes. codes.0.number ≡ row) }
    ensures kind { IfSome result (λ codes. is_whole codes.0.kind ≡ false) }
    ensures beside { IfSome result (λ codes. is_beside codes.0.kind ≡ true) }
    ensures command { IfSome result (λ codes. command_beside codes.0.kind codes.0 codes.2 ≡ command.now) }
    ensures answer { IfSome result (λ codes. answer_of codes.1 row ≡ answer.now) }
{
    let (kind, byte, page, bytes) = match *command {
        Command::Store { page, bytes } => (CommandKind::StoringPage, 0, page, bytes),
        Command::Register { page, node, bytes } => {
            let byte = u8::try_from(node).ok()?;
            (CommandKind::RegisteringPage, byte, page, bytes)
        }
        _ => return None,
    };
    let code = CommandCode::of_number(kind, byte, row);
    let told = AnswerCode::of(answer, row)?;
    Some((code, told, StoredPage { page, bytes }))
}

/// The code of an entry that is row `row` of the whole entries.
pub(crate) fn whole(row: u32) -> CommandCode
    ensures { result ≡ record { kind = CommandKind.Whole; byte = 0; guest = 0; number = row } }
{
    CommandCode::of_number(CommandKind::Whole, 0, row)
}

/// The entry that was kept as these codes.
pub(crate) fn entry(
    code: CommandCode,
    told: AnswerCode,
    pages: &[StoredPage],
    wholes: &[(Command, Result<Reply, Fault>)],
) -> (Command, Result<Reply, Fault>)
    requires { IsInside (length pages.now) (length wholes.now) code.kind code.number }
    ensures { result ≡ entry_of pages.now wholes.now code.kind code told }
{
    let row = code.number as usize;
    let command = match code.kind {
        CommandKind::Whole => return wholes[row],
        CommandKind::StoringPage => Command::Store {
            page: pages[row].page,
            bytes: pages[row].bytes,
        },
        CommandKind::RegisteringPage => Command::Register {
            page: pages[row].page,
            node: u32::from(code.byte),
            bytes: pages[row].bytes,
        },
        _ => code.command(),
    };
    (command, told.answer(code.number))
}
