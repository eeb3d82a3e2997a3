// The calls on a PDU and on a power TLV, whose fields are nine numbers, as C calls them.
ghost use Rattle.std.specs.Prelude.{◌≡◌};
ghost use Rattle.search.specs.Search.{search_of};
ghost use Rattle.reader.specs.Read.{read_of};
ghost use Rattle.ipaqsuni.specs.Outcome.{number_of, leaves};
ghost use Rattle.ipaqsuni.specs.Tlv.{offset_found, size_found, numbers_of, write_call, room_written, size_written};

#[unsafe(no_mangle)]
pub extern "C" fn ipaqsuni_find_power_tlv(pdu: &[u8], offset: &mut u64, length: &mut u64) -> u32
    ensures value { result ≡ number_of (search_of pdu.now) }
    ensures offset_after { offset.new ≡ leaves offset_found (search_of pdu.now) offset.old }
    ensures length_after { length.new ≡ leaves size_found (search_of pdu.now) length.old }
{
    ipaqsuni::frames::ipaqsuni_find_power_tlv(pdu, offset, length)
}

#[unsafe(no_mangle)]
pub extern "C" fn ipaqsuni_read_power_tlv(tlv: &[u8], fields: &mut [u32; 9]) -> u32
    ensures value { result ≡ number_of (read_of tlv.now) }
    ensures fields_after { fields.new ≡ leaves numbers_of (read_of tlv.now) fields.old }
{
    ipaqsuni::frames::ipaqsuni_read_power_tlv(tlv, fields)
}

#[unsafe(no_mangle)]
pub extern "C" fn ipaqsuni_write_power_tlv(
    fields: &[u32; 9],
    room: &mut [u8],
    written: &mut u64,
) -> u32
    ensures value { result ≡ number_of (write_call fields.now room.old) }
    ensures room_after { room.new ≡ leaves room_written (write_call fields.now room.old) room.old }
    ensures written_after { written.new ≡ leaves size_written (write_call fields.now room.old) written.old }
{
    ipaqsuni::frames::ipaqsuni_write_power_tlv(fields, room, written)
}
