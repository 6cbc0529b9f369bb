// The link for hosts in C and Rust: calls of the crates below under C names, with document 01's numbers in place of enums. `rt lib` in this crate writes the
// archive out/libiflazrud.a.
#![tactic(auto)]

ghost use Rattle.std.specs.Prelude.{◌≡◌};
ghost use Rattle.crc.specs.Crc.{crc_of};
ghost use Rattle.kiss_layout.specs.Escape.{escaped};
ghost use Rattle.kiss_layout.specs.Unescape.{unescaped};
ghost use Rattle.kiss_layout.specs.Build.{full_packet, built};
ghost use Rattle.kiss_calls.specs.Calls.{written, next_frame};
ghost use Rattle.link_numbers.specs.Numbers.{counted_escape, counted_build, counted_write, counted_next};

use kiss_calls::KissBuffer;
use link_numbers::{Counted, ReaderAnswer, build_count, escape_count, next_count, write_count};

#[unsafe(no_mangle)]
pub extern "C" fn iflazrud_m17_crc(bytes: &[u8]) -> u16
    ensures { result ≡ crc_of bytes.now }
{
    crc::m17_crc(bytes)
}

#[unsafe(no_mangle)]
pub extern "C" fn iflazrud_escape(src: &[u8], dst: &mut [u8]) -> Counted
    ensures { (result, dst.new) ≡ counted_escape (escaped src.now dst.old) }
{
    escape_count(kiss_escape::escape(src, dst))
}

#[unsafe(no_mangle)]
pub extern "C" fn iflazrud_unescape(src: &[u8], dst: &mut [u8]) -> usize
    ensures { (result, dst.new) ≡ unescaped src.now dst.old }
{
    kiss_unescape::unescape(src, dst)
}

#[unsafe(no_mangle)]
pub extern "C" fn iflazrud_new_full_packet(lsf: &[u8], packet: &[u8], room: &mut [u8]) -> Counted
    ensures { (result, room.new) ≡ counted_build (built (full_packet lsf.now packet.now) room.old) }
{
    build_count(kiss_build::new_full_packet(lsf, packet, room))
}

#[unsafe(no_mangle)]
pub extern "C" fn iflazrud_reader_write(
    reader: KissBuffer,
    offered: &[u8],
    store: &mut [u8],
) -> ReaderAnswer
    ensures { (result, store.new) ≡ counted_write (written reader offered.now store.old) }
{
    write_count(kiss_buffer::write(reader, offered, store))
}

#[unsafe(no_mangle)]
pub extern "C" fn iflazrud_reader_next(reader: KissBuffer, store: &mut [u8]) -> ReaderAnswer
    ensures { (result, store.new) ≡ counted_next (next_frame reader store.old) }
{
    let next = kiss_next::next_frame(reader, store);
    next_count(next.answer, next.buffer)
}
