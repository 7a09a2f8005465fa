#![tactic(auto)]

// Runs the cases of bitmaps and prints what the calls answer, a line for each case.

// Prints the numbers of reading: refusal, place, width, height, black pixels.
fn show_read(msg: &[u8]) {
    match bitmap::read(msg) {
        Ok(seen) => {
            vectors::number(0);
            vectors::number(0);
            vectors::number(seen.width as u64);
            vectors::number(seen.height as u64);
            vectors::number(seen.black as u64);
        }
        Err(refusal) => {
            vectors::number(refusal.why.number() as u64);
            vectors::number(refusal.place.0 as u64);
            vectors::number(0);
            vectors::number(0);
            vectors::number(0);
        }
    }
}

// Prints what reading a message answers: the numbers, then the image's octets and their digest.
fn show(msg: &[u8]) {
    show_read(msg);
    let image = bitmap::image(msg);
    vectors::number(image.len() as u64);
    vectors::number(vectors::digest(image));
    io::write_all(1, b"\n");
}

// The same of the first octets of a buffer.
fn show_front(buf: &[u8], octets: usize) {
    if octets <= buf.len() {
        show(&buf[0..octets]);
    }
}

// Reads a message of so many octets: a header, and image octets that are all alike.
fn read_case(info: u8, width: u8, height: u8, depth: u8, pixels: u8, octets: usize) {
    io::write_all(1, b"read");
    vectors::number(info as u64);
    vectors::number(width as u64);
    vectors::number(height as u64);
    vectors::number(depth as u64);
    vectors::number(pixels as u64);
    vectors::number(octets as u64);
    io::write_all(1, b":");
    let mut msg = [pixels; 7920];
    msg[0] = info;
    msg[1] = width;
    msg[2] = height;
    msg[3] = depth;
    show_front(&msg, octets);
}

// Writes, prints the numbers of writing (refusal, place, octets) and answers the octets.
fn show_write(width: u32, height: u32, image: &[u8], out: &mut [u8]) -> usize {
    match bitmap::write(width, height, image, out) {
        Ok(n) => {
            vectors::number(0);
            vectors::number(0);
            vectors::number(n.0 as u64);
            n.0
        }
        Err(refusal) => {
            vectors::number(refusal.why.number() as u64);
            vectors::number(refusal.place.0 as u64);
            vectors::number(0);
            0
        }
    }
}

// Writes the first octets of a row as the image, into so much room of a buffer.
fn write_front(
    width: u32,
    height: u32,
    row: &[u8],
    octets: usize,
    out: &mut [u8],
    room: usize,
) -> usize {
    if row.len() < octets {
        return 0;
    }
    if out.len() < room {
        return 0;
    }
    show_write(width, height, &row[0..octets], &mut out[0..room])
}

// Writes an image of so many octets, all alike, into so much room. The whole buffer's digest follows,
// and then what reading the octets written answers.
fn write_case(width: u32, height: u32, pixels: u8, octets: usize, room: usize) {
    io::write_all(1, b"write");
    vectors::number(width as u64);
    vectors::number(height as u64);
    vectors::number(pixels as u64);
    vectors::number(octets as u64);
    vectors::number(room as u64);
    io::write_all(1, b":");
    let row = [pixels; 7920];
    let mut out = [119u8; 7920];
    let n = write_front(width, height, &row, octets, &mut out, room);
    vectors::number(vectors::digest(&out));
    show_front(&out, n);
}

// The two samples, and an image of fifteen octets that all differ.
fn samples() {
    io::write_all(1, b"P11:");
    show(b"\x00\x08\x02\x01\xff\x01");
    io::write_all(1, b"P12:");
    show(b"\x00\x08\x02\x01\xff");
    io::write_all(1, b"mixed:");
    show(b"\x00\x28\x03\x01\x01\x03\x07\x0f\x1f\x3f\x7f\xff\x80\xc0\xe0\xf0\xf8\xfc\xfe");
}

fn widths() {
    read_case(0, 0, 1, 1, 1, 4);
    read_case(0, 7, 1, 1, 1, 4);
    read_case(0, 8, 1, 1, 1, 5);
    read_case(0, 9, 1, 1, 1, 5);
    read_case(0, 248, 1, 1, 1, 35);
    read_case(0, 249, 1, 1, 1, 35);
    read_case(0, 255, 1, 1, 1, 35);
}

fn heights() {
    read_case(0, 8, 0, 1, 3, 4);
    read_case(0, 8, 1, 1, 3, 5);
    read_case(0, 8, 255, 1, 3, 259);
}

// Other info and depth octets.
fn headers() {
    read_case(1, 8, 1, 1, 7, 5);
    read_case(16, 8, 1, 1, 7, 5);
    read_case(128, 8, 1, 1, 7, 5);
    read_case(255, 8, 1, 1, 7, 5);
    read_case(0, 8, 1, 0, 7, 5);
    read_case(0, 8, 1, 2, 7, 5);
    read_case(0, 8, 1, 255, 7, 5);
    read_case(1, 8, 1, 0, 7, 5);
}

// One octet short, exact, one more; and two faults at once.
fn lengths() {
    read_case(0, 24, 5, 1, 165, 18);
    read_case(0, 24, 5, 1, 165, 19);
    read_case(0, 24, 5, 1, 165, 20);
    read_case(0, 9, 5, 1, 165, 20);
    read_case(9, 24, 5, 1, 165, 20);
}

// All white and all black.
fn largest() {
    read_case(0, 248, 255, 1, 0, 7909);
    read_case(0, 248, 255, 1, 255, 7909);
    read_case(0, 248, 255, 1, 255, 7908);
    read_case(0, 248, 255, 1, 255, 7910);
}

// Messages of none to four octets.
fn shortest() {
    read_case(0, 8, 1, 1, 0, 0);
    read_case(0, 8, 1, 1, 0, 1);
    read_case(0, 8, 1, 1, 0, 2);
    read_case(0, 8, 1, 1, 0, 3);
    read_case(0, 8, 1, 1, 0, 4);
    read_case(1, 8, 1, 1, 0, 3);
    read_case(1, 8, 1, 1, 0, 4);
}

// Sizes that are written.
fn written_sizes() {
    write_case(0, 1, 129, 0, 7920);
    write_case(7, 1, 129, 0, 7920);
    write_case(8, 1, 129, 1, 7920);
    write_case(9, 1, 129, 1, 7920);
    write_case(248, 1, 129, 31, 7920);
    write_case(249, 1, 129, 31, 7920);
    write_case(255, 1, 129, 31, 7920);
    write_case(256, 1, 129, 32, 7920);
    write_case(4294967288, 1, 129, 31, 7920);
    write_case(8, 0, 129, 0, 7920);
    write_case(8, 255, 129, 255, 7920);
    write_case(8, 256, 129, 256, 7920);
    write_case(8, 4294967295, 129, 1, 7920);
}

// Images one octet short, exact, one more; buffers one octet too small, exact, larger.
fn written_lengths() {
    write_case(16, 3, 60, 5, 7920);
    write_case(16, 3, 60, 6, 7920);
    write_case(16, 3, 60, 7, 7920);
    write_case(16, 3, 60, 6, 9);
    write_case(16, 3, 60, 6, 10);
    write_case(16, 3, 60, 6, 11);
    write_case(16, 3, 60, 6, 0);
    write_case(17, 3, 60, 5, 0);
    write_case(16, 3, 60, 5, 0);
    write_case(248, 255, 0, 7905, 7908);
    write_case(248, 255, 0, 7905, 7909);
    write_case(248, 255, 255, 7905, 7909);
    write_case(248, 255, 255, 7905, 7910);
}

fn main() {
    samples();
    widths();
    heights();
    headers();
    lengths();
    largest();
    shortest();
    written_sizes();
    written_lengths();
}
