// The ruling on an incoming Request.
ghost use Rattle.serve.specs.Ruling.{ruling_of};
ghost use Rattle.bep.specs.Serving.{RuledSo};

// Serves a Request, or replies to it with no data.
#[unsafe(no_mangle)]
pub extern "C" fn bep_serve(
    out: &mut [u8],
    table: &[u8],
    repository: &[u8],
    message: &[u8],
    answer: &mut [u64; 5],
) -> u32
    ensures { RuledSo (ruling_of table.now repository.now message.now)
        out.old result answer.new out.new }
{
    bep::ruling::bep_serve(out, table, repository, message, answer)
}
