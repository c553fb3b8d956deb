// Reading a message.
ghost use Rattle.std.specs.Prelude.{◌≡◌};
ghost use Rattle.message.specs.Answers.{message_in};
ghost use Rattle.bep.specs.Words.{read_words, read_number};

use message::Edition;

// Reads the message at the front of some bytes: whatever follows its end belongs to the next one.
#[unsafe(no_mangle)]
pub extern "C" fn bep_read(input: &[u8], answer: &mut [u64; 11]) -> u32
    ensures { (result ≡ read_number (message_in Edition.New input.now))
        × (answer.new ≡ read_words (message_in Edition.New input.now)) }
{
    bep::read::bep_read(input, answer)
}

// The same of the old edition. A message has no Repository there: its start is 4 and its length 0.
#[unsafe(no_mangle)]
pub extern "C" fn bep_read_old(input: &[u8], answer: &mut [u64; 11]) -> u32
    ensures { (result ≡ read_number (message_in Edition.Old input.now))
        × (answer.new ≡ read_words (message_in Edition.Old input.now)) }
{
    bep::read::bep_read_old(input, answer)
}
