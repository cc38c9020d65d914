// A small hall as the bytes of a file: one block, or none where there are no rows.
ghost use Rattle.std.specs.Prelude.{◌≡◌, ◌+◌, ◌≤◌, length};
ghost use Rattle.arrayvec.specs.ArrayVec.{array_vec_len};

use crate::{Row, Small};
use arrayvec::ArrayVec;

fn append(file: &mut ArrayVec<u8, 92>, bytes: &[u8])
    requires { array_vec_len file.old + length bytes.now ≤ 92 }
    ensures { array_vec_len file.new ≡ array_vec_len file.old + length bytes.now }
{
    for byte in bytes {
        file.push(*byte);
    }
}

// The eight bytes of a row; a fixed one has FFFFFFFF hexadecimal in place of a price.
fn bytes_of_row(row: Row) -> [u8; 8] {
    let [a, b, c, d] = row.price.map_or(u32::MAX, u32::from).to_le_bytes();
    [row.from, 0, row.to, 0, a, b, c, d]
}

pub fn bytes_of(hall: &Small) -> ArrayVec<u8, 92> {
    let rows = hall.rows.as_slice();
    let mut file = ArrayVec::new();
    append(&mut file, &[hall.n as u8, 0, 0, 0]);
    if rows.is_empty() {
        return file;
    }
    file[2] = 1;
    append(&mut file, &[12, 0, 0, 0, 8 * rows.len() as u8, 0, 0, 0]);
    for row in rows {
        append(&mut file, &bytes_of_row(*row));
    }
    file
}
