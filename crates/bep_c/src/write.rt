// Writing a message into a lent buffer: the answer is the number of bytes written or the place of the refusal, and only a message that is
// accepted changes the buffer, and only its first bytes, as many as the answer says.
ghost use Rattle.std.specs.Prelude.{[]};
ghost use Rattle.message.specs.Message.{message};
ghost use Rattle.message_write.specs.Writing.{index_bytes, request_bytes, response_bytes, writing};
ghost use Rattle.bep.specs.Filling.{Gives};

use message::Edition;

// An Index: its files are an encoded array, and bytes after the array's end do not count.
#[unsafe(no_mangle)]
pub extern "C" fn bep_write_index(
    out: &mut [u8],
    id: u32,
    repository: &[u8],
    files: &[u8],
    answer: &mut [u64; 1],
) -> u32
    ensures { Gives
        (writing (message Edition.New) id 1 (index_bytes Edition.New repository.now files.now))
        out.old result answer.new out.new }
{
    bep::write::bep_write_index(out, id, repository, files, answer)
}

// An IndexUpdate, likewise.
#[unsafe(no_mangle)]
pub extern "C" fn bep_write_index_update(
    out: &mut [u8],
    id: u32,
    repository: &[u8],
    files: &[u8],
    answer: &mut [u64; 1],
) -> u32
    ensures { Gives
        (writing (message Edition.New) id 6 (index_bytes Edition.New repository.now files.now))
        out.old result answer.new out.new }
{
    bep::write::bep_write_index_update(out, id, repository, files, answer)
}

// A Request.
#[unsafe(no_mangle)]
pub extern "C" fn bep_write_request(
    out: &mut [u8],
    id: u32,
    repository: &[u8],
    name: &[u8],
    offset: u64,
    size: u32,
    hash: &[u8],
    answer: &mut [u64; 1],
) -> u32
    ensures { Gives
        (writing (message Edition.New) id 2 (request_bytes Edition.New repository.now name.now offset size hash.now))
        out.old result answer.new out.new }
{
    bep::write::bep_write_request(out, id, repository, name, offset, size, hash, answer)
}

// An Index of the old edition, which has no Repository.
#[unsafe(no_mangle)]
pub extern "C" fn bep_write_old_index(
    out: &mut [u8],
    id: u32,
    files: &[u8],
    answer: &mut [u64; 1],
) -> u32
    ensures { Gives
        (writing (message Edition.Old) id 1 (index_bytes Edition.Old tt files.now))
        out.old result answer.new out.new }
{
    bep::write::bep_write_old_index(out, id, files, answer)
}

// An IndexUpdate of the old edition.
#[unsafe(no_mangle)]
pub extern "C" fn bep_write_old_index_update(
    out: &mut [u8],
    id: u32,
    files: &[u8],
    answer: &mut [u64; 1],
) -> u32
    ensures { Gives
        (writing (message Edition.Old) id 6 (index_bytes Edition.Old tt files.now))
        out.old result answer.new out.new }
{
    bep::write::bep_write_old_index_update(out, id, files, answer)
}

// A Request of the old edition.
#[unsafe(no_mangle)]
pub extern "C" fn bep_write_old_request(
    out: &mut [u8],
    id: u32,
    name: &[u8],
    offset: u64,
    size: u32,
    hash: &[u8],
    answer: &mut [u64; 1],
) -> u32
    ensures { Gives
        (writing (message Edition.Old) id 2 (request_bytes Edition.Old tt name.now offset size hash.now))
        out.old result answer.new out.new }
{
    bep::write::bep_write_old_request(out, id, name, offset, size, hash, answer)
}

// A Response: one without data says that the block is not available.
#[unsafe(no_mangle)]
pub extern "C" fn bep_write_response(
    out: &mut [u8],
    id: u32,
    data: &[u8],
    answer: &mut [u64; 1],
) -> u32
    ensures { Gives
        (writing (message Edition.New) id 3 (response_bytes «data».now))
        out.old result answer.new out.new }
{
    bep::write::bep_write_response(out, id, data, answer)
}

// A Ping.
#[unsafe(no_mangle)]
pub extern "C" fn bep_write_ping(out: &mut [u8], id: u32, answer: &mut [u64; 1]) -> u32
    ensures { Gives
        (writing (message Edition.New) id 4 [])
        out.old result answer.new out.new }
{
    bep::write::bep_write_ping(out, id, answer)
}

// A Pong.
#[unsafe(no_mangle)]
pub extern "C" fn bep_write_pong(out: &mut [u8], id: u32, answer: &mut [u64; 1]) -> u32
    ensures { Gives
        (writing (message Edition.New) id 5 [])
        out.old result answer.new out.new }
{
    bep::write::bep_write_pong(out, id, answer)
}

// An Options message: its options are an encoded array, and bytes after the array's end do not count.
#[unsafe(no_mangle)]
pub extern "C" fn bep_write_options(
    out: &mut [u8],
    id: u32,
    options: &[u8],
    answer: &mut [u64; 1],
) -> u32
    ensures { Gives
        (writing (message Edition.New) id 7 options.now)
        out.old result answer.new out.new }
{
    bep::write::bep_write_options(out, id, options, answer)
}
