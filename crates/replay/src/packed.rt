/// Unpacks what stands from a place on to the room's start, as far as it fits, and says how long it is: a zero has after it how many zeros
/// it stands for, and every other byte stands for itself. Bytes that the unpacked ones reach before they are read are read as those.
pub fn unpack(room: &mut [u8], from: usize) -> usize {
    let mut length = 0;
    let mut counts_zeros = false;
    for at in from..room.len() {
        let byte = room[at];
        if counts_zeros {
            length = put_run(room, length, 0, byte);
            counts_zeros = false;
        } else if byte == 0 {
            counts_zeros = true;
        } else {
            length = put_run(room, length, byte, 1);
        }
    }
    length
}

// Puts a byte down so often, as far as it fits, and says where it ends.
fn put_run(room: &mut [u8], at: usize, byte: u8, count: u8) -> usize {
    let end = at.saturating_add(usize::from(count)).min(room.len());
    if let Some(run) = room.get_mut(at..end) {
        run.fill(byte);
    }
    end
}
