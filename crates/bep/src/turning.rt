// Turning a message of one edition into the other, into a lent buffer.
ghost use Rattle.edition.specs.Turning.{upgrading, downgrading};
ghost use Rattle.bep.specs.Filling.{Gives};

use crate::filling::give;

// An old message becomes a new one, with the Repository that is given if a message of its type has one.
pub fn bep_upgrade(out: &mut [u8], message: &[u8], repository: &[u8], answer: &mut [u64; 1]) -> u32
    ensures { Gives
        (upgrading message.now repository.now)
        out.old result answer.new out.new }
{
    let w = edition::upgrade(message, repository, out);
    give(w, answer)
}

// A new message becomes an old one, without its Repository.
pub fn bep_downgrade(out: &mut [u8], message: &[u8], answer: &mut [u64; 1]) -> u32
    ensures { Gives
        (downgrading message.now)
        out.old result answer.new out.new }
{
    let w = edition::downgrade(message, out);
    give(w, answer)
}
