// Chapter 7: the inter-core interrupt cells and mailboxes of one core.
#![tactic(auto)]

ghost use Rattle.std.specs.Prelude.{◌≡◌, cond, get_or, set};
ghost use Rattle.cores.specs.Core.{applied_of, line_of, mail_box_read, read_of};
ghost use Rattle.cores.specs.Moved.{with_moved};

use bits::After;
use ipi_registers::{Cell, Effect, Register};

#[derive(Clone, Copy)]
pub struct Core {
    pub status: u32,
    pub enable: u32,
    pub mail: [u64; 4],
}

// Mailboxes are chosen word by word and not by an index: an index would have the array written to memory and read back at every step.
#[tactic(auto, using(crate::proofs::Four::get_four))]
fn mailbox(all: [u64; 4], i: u64) -> u64
    ensures { result ≡ get_or all i 0 }
{
    let from3 = bits::choose(i == 3, all[3], 0);
    let from2 = bits::choose(i == 2, all[2], from3);
    let from1 = bits::choose(i == 1, all[1], from2);
    bits::choose(i == 0, all[0], from1)
}

#[tactic(auto, using(crate::proofs::Four::set_four))]
fn put_mailbox(all: [u64; 4], i: u64, v: u64) -> [u64; 4]
    ensures { result ≡ set all i v }
{
    [
        bits::choose(i == 0, v, all[0]),
        bits::choose(i == 1, v, all[1]),
        bits::choose(i == 2, v, all[2]),
        bits::choose(i == 3, v, all[3]),
    ]
}

fn mailbox_read(word: u64, width: u64) -> u64
    ensures { result ≡ mail_box_read word width }
{
    if width == 8 {
        word
    } else {
        word % 0x1_0000_0000
    }
}

impl Core {
    // What a register reads as. No read of Set, Clear or a send is accepted.
    #[tactic(auto, unfolding(crate::specs::Core::read_of))]
    pub fn read(self, register: Register, width: u64) -> u64
        ensures { result ≡ read_of self register width }
    {
        match register {
            Register::Status => u64::from(self.status),
            Register::Enable => u64::from(self.enable),
            Register::MailBox(i) => mailbox_read(mailbox(self.mail, i), width),
            Register::MailBoxHigh(i) => mailbox(self.mail, i) / 0x1_0000_0000,
            Register::Set | Register::Clear | Register::IpiSend | Register::MailSend => 0,
        }
    }

    // The core after an effect, where the effect is its own, and the bits of the cell that then differ. Of a mailbox that is not there, none does.
    pub fn applied(mut self, own: bool, effect: Effect) -> After<Core>
        ensures { result ≡ with_moved self (cond own (applied_of self effect) self) effect.cell }
    {
        let Effect { cell, mask, bits } = effect;
        let moved = match cell {
            Cell::Status => {
                let new = bits::merge(self.status, mask, bits);
                self.status = bits::choose(own, new.state, self.status);
                new.moved
            }
            Cell::Enable => {
                let new = bits::merge(self.enable, mask, bits);
                self.enable = bits::choose(own, new.state, self.enable);
                new.moved
            }
            Cell::MailBox(i) => {
                let old = mailbox(self.mail, i);
                let new = bits::merge(old, mask, bits);
                self.mail = put_mailbox(self.mail, i, bits::choose(own, new.state, old));
                bits::choose(i < 4, new.moved, 0)
            }
        };
        After {
            state: self,
            moved: bits::choose(own, moved, 0),
        }
    }

    // The interrupt line: some bit is 1 in both Status and Enable.
    #[tactic(auto, unfolding(crate::specs::Core::line_of))]
    pub fn line(self) -> bool
        ensures { result ≡ line_of self }
    {
        bits::common(self.status, self.enable)
    }
}
