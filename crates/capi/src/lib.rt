// The entries for C: slices pass as pointer and length. include/sovzedal.h documents each argument.
#![tactic(auto)]

ghost use Rattle.std.specs.Prelude.{[], ◌≡◌};
ghost use Rattle.semantics.specs.Runs.{eager as eager_runner, lazy as lazy_runner, run};
ghost use Rattle.semantics.specs.Recording.{recording};
ghost use Rattle.interp.specs.Answers.{request_of, buffers_of};
ghost use Rattle.replies.specs.Replies.{decode_reply, typecheck_reply, replied, called, enforce_flag, returned_reply, returned_run};
ghost use Rattle.queues.specs.Answers.{job_of};
ghost use Rattle.capi_lines.specs.Entries.{lines_add, returned_add, lines_serve, returned_serve};
ghost use Rattle.capi_explain.specs.Entries.{explain_call, returned_explain};
ghost use Rattle.capi_lean.specs.Entries.{erase_call, returned_erase};
ghost use Rattle.irrelevance.specs.Naming.{naming};
ghost use Rattle.capi_names.specs.Entries.{names_reply};
ghost use Rattle.capi_compare.specs.Entries.{compare_call};
ghost use Rattle.capi_record.specs.Entries.{record_call, returned_record};
ghost use Rattle.capi_piece.specs.Entries.{piece_reply};
ghost use Rattle.subterms.specs.Judging.{judging};
ghost use Rattle.capi_term.specs.Entries.{term_reply};
ghost use Rattle.intervals.specs.Runs.{interval_run};
ghost use Rattle.capi_ranges.specs.Entries.{interval_call};
ghost use Rattle.capi_block.specs.Blocks.{block_read, returned_block, block_write};

// What any bytes are as a sheet.
#[unsafe(no_mangle)]
pub extern "C" fn sovzedal_decode(sheet: &[u8], answer: &mut [u32]) -> u32
    ensures { returned_reply result answer.new ≡ replied answer.old (decode_reply sheet.now) }
{
    capi_base::decode(sheet, answer)
}

// The type checker's verdict on a sheet.
#[unsafe(no_mangle)]
pub extern "C" fn sovzedal_typecheck(sheet: &[u8], answer: &mut [u32]) -> u32
    ensures { returned_reply result answer.new ≡ replied answer.old (typecheck_reply sheet.now) }
{
    capi_base::typecheck(sheet, answer)
}

// A run that holds the granted set.
#[unsafe(no_mangle)]
pub extern "C" fn sovzedal_run_eager(
    sheet: &[u8],
    start: &[u32],
    calls: u32,
    depth: u32,
    enforce: u32,
    cells: &mut [u8],
    posts: &mut [u32],
    answer: &mut [u32],
) -> u32
    ensures { returned_run result answer.new (buffers_of cells.new posts.new [])
        ≡ called answer.old (buffers_of cells.old posts.old [])
        (run sheet.now (request_of eager_runner (enforce_flag enforce) start.now calls depth)
        (buffers_of cells.old posts.old [])) }
{
    capi_base::eager(sheet, start, calls, depth, enforce, cells, posts, answer)
}

// A run that walks the frames of a store of 6,496 numbers.
#[unsafe(no_mangle)]
pub extern "C" fn sovzedal_run_lazy(
    sheet: &[u8],
    start: &[u32],
    calls: u32,
    depth: u32,
    enforce: u32,
    cells: &mut [u8],
    posts: &mut [u32],
    frames: &mut [u32],
    answer: &mut [u32],
) -> u32
    ensures { returned_run result answer.new (buffers_of cells.new posts.new frames.new)
        ≡ called answer.old (buffers_of cells.old posts.old frames.old)
        (run sheet.now (request_of lazy_runner (enforce_flag enforce) start.now calls depth)
        (buffers_of cells.old posts.old frames.old)) }
{
    capi_base::lazy(
        sheet, start, calls, depth, enforce, cells, posts, frames, answer,
    )
}

// A run over ranges: a pair, lowest and highest, for each number term.
#[unsafe(no_mangle)]
pub extern "C" fn sovzedal_run_ranges(
    sheet: &[u8],
    pairs: &[u16],
    start: &[u32],
    calls: u32,
    depth: u32,
    enforce: u32,
    cells: &mut [u8],
    posts: &mut [u32],
    answer: &mut [u32],
) -> u32
    ensures { returned_run result answer.new (buffers_of cells.new posts.new [])
        ≡ interval_call answer.old (buffers_of cells.old posts.old [])
        (interval_run sheet.now pairs.now (request_of eager_runner (enforce_flag enforce) start.now calls depth)
        (buffers_of cells.old posts.old [])) }
{
    capi_ranges::ranges(
        sheet, pairs, start, calls, depth, enforce, cells, posts, answer,
    )
}

// A run that holds the granted set, with a record of what it decides.
#[unsafe(no_mangle)]
pub extern "C" fn sovzedal_record_eager(
    sheet: &[u8],
    start: &[u32],
    calls: u32,
    depth: u32,
    enforce: u32,
    cells: &mut [u8],
    posts: &mut [u32],
    noted: &mut [u8],
    answer: &mut [u32],
) -> u32
    ensures { returned_record result answer.new (buffers_of cells.new posts.new []) noted.new
        ≡ record_call answer.old (buffers_of cells.old posts.old []) noted.old
        (recording sheet.now (request_of eager_runner (enforce_flag enforce) start.now calls depth)
        (buffers_of cells.old posts.old []) noted.old) }
{
    capi_record::eager(
        sheet, start, calls, depth, enforce, cells, posts, noted, answer,
    )
}

// A run that walks the frames of a store of 6,496 numbers, with a record of what it decides.
#[unsafe(no_mangle)]
pub extern "C" fn sovzedal_record_lazy(
    sheet: &[u8],
    start: &[u32],
    calls: u32,
    depth: u32,
    enforce: u32,
    cells: &mut [u8],
    posts: &mut [u32],
    frames: &mut [u32],
    noted: &mut [u8],
    answer: &mut [u32],
) -> u32
    ensures { returned_record result answer.new (buffers_of cells.new posts.new frames.new) noted.new
        ≡ record_call answer.old (buffers_of cells.old posts.old frames.old) noted.old
        (recording sheet.now (request_of lazy_runner (enforce_flag enforce) start.now calls depth)
        (buffers_of cells.old posts.old frames.old) noted.old) }
{
    capi_record::lazy(
        sheet, start, calls, depth, enforce, cells, posts, frames, noted, answer,
    )
}

// A register's byte. The block is a list of 16 bytes.
#[unsafe(no_mangle)]
pub extern "C" fn sovzedal_block_read(block: &[u8], address: u32, answer: &mut [u32]) -> u32
    ensures { returned_reply result answer.new ≡ block_read block.now address answer.old }
{
    capi_block::read(block, address, answer)
}

// A write to a register; 1 to the command runs the sheet, in the largest buffers.
#[unsafe(no_mangle)]
pub extern "C" fn sovzedal_block_write(
    block: &mut [u8],
    address: u32,
    value: u8,
    sheet: &[u8],
    cells: &mut [u8],
    posts: &mut [u32],
    answer: &mut [u32],
) -> u32
    ensures { returned_block result answer.new block.new (buffers_of cells.new posts.new [])
        ≡ block_write block.old address value sheet.now (buffers_of cells.old posts.old [])
        answer.old }
{
    capi_block::write(block, address, value, sheet, cells, posts, answer)
}

// A job for one of the four lines. Their state is a list of 102 numbers.
#[unsafe(no_mangle)]
pub extern "C" fn sovzedal_lines_add(
    lines: &mut [u64],
    line: u32,
    offset: usize,
    length: usize,
    calls: u32,
    store: &[u8],
    answer: &mut [u32],
) -> u32
    ensures { returned_add result answer.new lines.new
        ≡ lines_add lines.old line (job_of offset length calls) store.now answer.old }
{
    capi_lines::add(lines, line, offset, length, calls, store, answer)
}

// The next job of the four lines has its turn.
#[unsafe(no_mangle)]
pub extern "C" fn sovzedal_lines_serve(
    lines: &mut [u64],
    store: &[u8],
    cells: &mut [u8],
    posts: &mut [u32],
    answer: &mut [u32],
) -> u32
    ensures { returned_serve result answer.new lines.new (buffers_of cells.new posts.new [])
        ≡ lines_serve lines.old store.now (buffers_of cells.old posts.old []) answer.old }
{
    capi_lines::serve(lines, store, cells, posts, answer)
}

// Why a sheet needs a privilege: the chain of terms, in a list of at least 32 places.
#[unsafe(no_mangle)]
pub extern "C" fn sovzedal_explain(
    sheet: &[u8],
    privilege: u32,
    chain: &mut [u16],
    answer: &mut [u32],
) -> u32
    ensures { returned_explain result answer.new chain.new
        ≡ explain_call sheet.now privilege chain.old answer.old }
{
    capi_explain::explain(sheet, privilege, chain, answer)
}

// The lean sheet of an accepted one, at the front of a buffer.
#[unsafe(no_mangle)]
pub extern "C" fn sovzedal_erase(sheet: &[u8], lean: &mut [u8], answer: &mut [u32]) -> u32
    ensures { returned_erase result answer.new lean.new
        ≡ erase_call sheet.now lean.old answer.old }
{
    capi_lean::erase(sheet, lean, answer)
}

// Whether a sheet names a privilege, and the lowest term that does.
#[unsafe(no_mangle)]
pub extern "C" fn sovzedal_names(sheet: &[u8], privilege: u32, answer: &mut [u32]) -> u32
    ensures { returned_reply result answer.new ≡ replied answer.old (names_reply (naming sheet.now privilege)) }
{
    capi_names::names(sheet, privilege, answer)
}

// The unit's record held against the office's.
#[unsafe(no_mangle)]
pub extern "C" fn sovzedal_compare(unit: &[u8], office: &[u8], answer: &mut [u32]) -> u32
    ensures { returned_reply result answer.new ≡ compare_call unit.now office.now answer.old }
{
    capi_compare::compare(unit, office, answer)
}

// The smallest faulty piece of a sheet, with the place of its record.
#[unsafe(no_mangle)]
pub extern "C" fn sovzedal_piece(sheet: &[u8], answer: &mut [u32]) -> u32
    ensures { returned_reply result answer.new ≡ replied answer.old (piece_reply sheet.now) }
{
    capi_piece::piece(sheet, answer)
}

// The judgement of one term of a sheet, where it stands.
#[unsafe(no_mangle)]
pub extern "C" fn sovzedal_term(sheet: &[u8], term: u32, answer: &mut [u32]) -> u32
    ensures { returned_reply result answer.new ≡ replied answer.old (term_reply (judging sheet.now term)) }
{
    capi_term::term(sheet, term, answer)
}
