// Turning a message of one edition into the other, into a lent buffer.
ghost use Rattle.edition.specs.Turning.{upgrading, downgrading};
ghost use Rattle.bep.specs.Filling.{Gives};

// An old message becomes a new one, with the Repository that is given if a message of its type has one.
#[unsafe(no_mangle)]
pub extern "C" fn bep_upgrade(
    out: &mut [u8],
    message: &[u8],
    repository: &[u8],
    answer: &mut [u64; 1],
) -> u32
    ensures { Gives
        (upgrading message.now repository.now)
        out.old result answer.new out.new }
{
    bep::turning::bep_upgrade(out, message, repository, answer)
}

// A new message becomes an old one, without its Repository.
#[unsafe(no_mangle)]
pub extern "C" fn bep_downgrade(out: &mut [u8], message: &[u8], answer: &mut [u64; 1]) -> u32
    ensures { Gives
        (downgrading message.now)
        out.old result answer.new out.new }
{
    bep::turning::bep_downgrade(out, message, answer)
}
