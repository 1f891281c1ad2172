use crate::asserts::{same, same_at};
use el_base::{FileFault, FormatFault, Numbered};
use elf_image::*;
use std::alloc::{AllocError, Global};
use std::process::Abort;
use std::test::Fail;
use worked_files::HELLO;

/// The most bytes of a file.
const LIMIT: usize = IMAGE_FILE_LIMIT as usize;

/// The image, or the fault.
fn loaded(rt: &impl Abort, alloc: Global, file: &[u8], harts: u8) -> Result<Image, ImageFault> {
    assert!(rt; file.len() <= LIMIT);
    assert!(rt; (1..=8).contains(&harts));
    load(alloc, file, harts)
}

/// The fault, or none.
fn judged(rt: &impl Abort, alloc: Global, file: &[u8], harts: u8) -> Option<ImageFault> {
    loaded(rt, alloc, file, harts).err()
}

/// The fault of a kind at a place, or none.
fn bad(fault: Option<(FaultKind, u32)>) -> Option<ImageFault> {
    let (kind, place) = fault?;
    Some(kind.at(place).into())
}

/// The file with bytes written over it, each with its place.
fn changed(edits: &[(usize, u8)]) -> [u8; 122] {
    let mut file = HELLO;
    for (place, value) in edits {
        if let Some(byte) = file.get_mut(*place) {
            *byte = *value;
        }
    }
    file
}

/// The first header of a file with this entry and so many program headers.
fn first_header(entry: u32, headers: u8) -> [u8; 52] {
    let mut bytes = [0; 52];
    bytes.copy_from_slice(&HELLO[..52]);
    bytes[24..28].copy_from_slice(&entry.to_le_bytes());
    bytes[44] = headers;
    bytes
}

/// Puts words behind a file.
fn put(file: &mut Vec<u8>, words: &[u32]) -> Result<(), AllocError> {
    for word in words {
        file.extend_from_slice(&word.to_le_bytes())?;
    }
    Ok(())
}

/// A file of these program headers, each as p_type, p_offset, p_vaddr, p_filesz, p_memsz and p_flags,
/// with nothing but `0xee` behind them, up to a length.
fn file_of(
    alloc: Global,
    entry: u32,
    headers: &[[u32; 6]],
    len: usize,
) -> Result<Vec<u8>, AllocError> {
    let mut file = first_header(entry, headers.len().to_le_bytes()[0]).to_vec(alloc)?;
    for &[p_type, p_offset, p_vaddr, p_filesz, p_memsz, p_flags] in headers {
        let header = [
            p_type, p_offset, p_vaddr, p_vaddr, p_filesz, p_memsz, p_flags, 0,
        ];
        put(&mut file, &header)?;
    }
    file.resize(len, 0xee)?;
    Ok(file)
}

/// The numbers and the names that a user reads.
#[test]
fn each_number_has_its_name(rt: HostRuntime) {
    for (number, name) in [
        (0, None),
        (1, Some("Short")),
        (2, Some("Magic")),
        (3, Some("Class")),
        (4, Some("ByteOrder")),
        (5, Some("Version")),
        (6, Some("FileKind")),
        (7, Some("Machine")),
        (8, Some("Flags")),
        (9, Some("Table")),
        (10, Some("Dynamic")),
        (11, Some("Segment")),
        (12, Some("Overlap")),
        (13, Some("TooWide")),
        (14, Some("TooHigh")),
        (15, Some("Entry")),
        (16, Some("Empty")),
        (17, None),
    ] {
        same_at(&rt, number, FaultKind::name_of_number(number), name);
    }
}

/// The text of an error.
#[test]
fn an_error_says_the_number_and_the_place(rt: HostRuntime) -> Result<(), Fail> {
    for (fault, text) in [
        (
            ImageFault::Bad {
                number: 13,
                place: 28,
            },
            "image fault 13 at byte 28",
        ),
        (ImageFault::NoMemory, "no memory for the image"),
    ] {
        same(&rt, format!(in rt.alloc(); "{fault}")?.as_str(), text);
    }
    Ok(())
}

#[test]
fn cut_files_are_refused(rt: HostRuntime) {
    for len in 0..HELLO.len() {
        let want = match len {
            0..52 => (FaultKind::Short, len as u32),
            52..84 => (FaultKind::Table, 28),
            _ => (FaultKind::Segment, 56),
        };
        let found = judged(&rt, rt.alloc(), &HELLO[..len], 1);
        same_at(&rt, len, found, bad(Some(want)));
    }
}

/// Places and bytes that are written over the file's, and its fault then.
const CHANGES: &[(&[(usize, u8)], Option<(FaultKind, u32)>)] = &[
    (&[], None),
    (&[(0, 0)], Some((FaultKind::Magic, 0))),
    (&[(3, 0x47), (1, 0)], Some((FaultKind::Magic, 1))),
    (&[(4, 2)], Some((FaultKind::Class, 4))),
    (&[(5, 2)], Some((FaultKind::ByteOrder, 5))),
    (&[(6, 2), (20, 2)], Some((FaultKind::Version, 6))),
    (&[(20, 2)], Some((FaultKind::Version, 20))),
    (&[(16, 3), (36, 1)], Some((FaultKind::FileKind, 16))),
    (&[(18, 0x28)], Some((FaultKind::Machine, 18))),
    (&[(36, 1), (40, 64)], Some((FaultKind::Flags, 36))),
    (&[(36, 8)], Some((FaultKind::Flags, 36))),
    (&[(36, 0x10)], None),
    (&[(40, 64)], Some((FaultKind::Table, 40))),
    (&[(42, 56)], Some((FaultKind::Table, 42))),
    (&[(44, 0xff), (45, 0xff)], Some((FaultKind::Table, 44))),
    (&[(44, 65)], Some((FaultKind::Table, 44))),
    (&[(44, 64)], Some((FaultKind::Table, 28))),
    (&[(44, 0), (42, 0)], Some((FaultKind::Empty, 44))),
    (
        &[(28, 0xff), (29, 0xff), (30, 0xff), (31, 0xff)],
        Some((FaultKind::Table, 28)),
    ),
    (&[(52, 2)], Some((FaultKind::Dynamic, 52))),
    (&[(52, 3)], Some((FaultKind::Dynamic, 52))),
    (&[(52, 0)], Some((FaultKind::Empty, 44))),
    (
        &[
            (60, 0),
            (61, 0xff),
            (62, 0xff),
            (63, 0xff),
            (72, 0),
            (73, 2),
        ],
        Some((FaultKind::TooHigh, 28)),
    ),
    (&[(72, 0x79)], Some((FaultKind::Segment, 68))),
    (
        &[(59, 0xff), (58, 0xff), (57, 0xff), (56, 0xff)],
        Some((FaultKind::Segment, 56)),
    ),
    (&[(76, 4)], Some((FaultKind::Entry, 24))),
    (&[(24, 0x56)], Some((FaultKind::Entry, 24))),
    (&[(24, 0x78)], Some((FaultKind::Entry, 24))),
    (&[(76, 7)], None),
];

#[test]
fn changed_files_have_their_first_fault(rt: HostRuntime) {
    for &(edits, want) in CHANGES {
        let found = judged(&rt, rt.alloc(), &changed(edits), 1);
        same_at(&rt, edits, found, bad(want));
    }
}

/// The image of the file, for one hart.
fn image(rt: &impl Abort, alloc: Global) -> Result<Image, Fail> {
    Ok(loaded(rt, alloc, &HELLO, 1)?)
}

#[test]
fn the_file_is_loaded_behind_zeros(rt: HostRuntime) -> Result<(), Fail> {
    let image = image(&rt, rt.alloc())?;
    let bytes = image.bytes();
    same(
        &rt,
        (image.base(), image.entry(), image.harts(), bytes.len()),
        (0x10000, 0x10054, 1, 0x20080 - 0x10000),
    );
    let zeros = bytes.iter().skip(HELLO.len()).all(|byte| *byte == 0);
    same(&rt, (bytes.starts_with(&HELLO), zeros), (true, true));
    Ok(())
}

/// Addresses, and the words of code there.
const CODE_WORDS: &[(u32, Option<u32>)] = &[
    (0x10054, Some(0x0010_0513)),
    (0x10058, Some(0x0000_0597)),
    (0x10074, Some(0x0000_0073)),
    (0x10076, Some(0x0a41_0000)),
    (0x10077, None),
    (0x10078, None),
    (0xfffc, None),
    (0xffff_ffff, None),
];

#[test]
fn words_of_code_are_read_where_all_of_them_is_code(rt: HostRuntime) -> Result<(), Fail> {
    let image = image(&rt, rt.alloc())?;
    for &(pc, word) in CODE_WORDS {
        same_at(&rt, pc, image.code_word(pc), word);
    }
    Ok(())
}

/// Code has one segment, the whole file.
fn is_the_file(rt: &impl Abort, code: &Code) {
    same(rt, code.segments().len(), 1);
    for segment in code.segments() {
        same(
            rt,
            (segment.start(), segment.bytes()),
            (0x10000, HELLO.as_slice()),
        );
    }
}

/// Code that is shared is that of the file.
fn is_shared(rt: &impl Abort, code: &Code) -> Result<(), Fail> {
    let shared = code.share().ok().ok_or("no memory")?;
    is_the_file(rt, &shared);
    Ok(())
}

#[test]
fn shared_code_is_the_code(rt: HostRuntime) -> Result<(), Fail> {
    let image = image(&rt, rt.alloc())?;
    is_shared(&rt, image.code())
}

#[test]
fn a_linkers_usual_image_is_taken(rt: HostRuntime) -> Result<(), Fail> {
    let headers = [
        [0x7000_0003, 0x6f0, 0, 0x1a, 0, 4],
        [1, 0, 0x10000, 0x6d4, 0x6d4, 5],
        [1, 0x6d4, 0x116d4, 0x1c, 0x14c, 6],
        [0x6474_e551, 0, 0, 0, 0, 6],
    ];
    let file = file_of(rt.alloc(), 0x100b4, &headers, 0x70a)?;
    let image = loaded(&rt, rt.alloc(), &file, 8)?;
    let code = image.code_word(0x116d4);
    same(
        &rt,
        (image.base(), image.bytes().len(), code),
        (0x10000, 0x91840 - 0x10000, None),
    );
    for (address, byte) in [
        (0x10000, 0x7f),
        (0x106d3, 0xee),
        (0x106d4, 0),
        (0x116d3, 0),
        (0x116d4, 0xee),
        (0x116ef, 0xee),
        (0x116f0, 0),
        (0x9183f, 0),
    ] {
        let found = image.bytes().get(address - 0x10000).copied();
        same_at(&rt, address, found, Some(byte));
    }
    Ok(())
}

/// Two program headers behind that of the code, and the fault of the three.
const SECOND_AND_THIRD: &[([u32; 6], [u32; 6], Option<(FaultKind, u32)>)] = &[
    // adjacent, in either order
    (
        [1, 0x94, 0x10008, 4, 8, 6],
        [1, 0x94, 0xfff0, 4, 16, 6],
        None,
    ),
    // one byte shared, with the first and with the second
    (
        [1, 0x94, 0x10007, 4, 8, 6],
        [0, 0, 0, 0, 0, 0],
        Some((FaultKind::Overlap, 84)),
    ),
    (
        [1, 0x94, 0x10010, 4, 8, 6],
        [1, 0x94, 0xfff8, 4, 9, 6],
        Some((FaultKind::Overlap, 116)),
    ),
    // the same bytes twice
    (
        [1, 0x94, 0x10008, 4, 8, 6],
        [1, 0x94, 0x10008, 4, 8, 6],
        Some((FaultKind::Overlap, 116)),
    ),
    // a header without memory is no segment, and one without bytes in the file may name any place
    (
        [1, 0x94, 0x10000, 0, 0, 6],
        [1, 0xffff_ffff, 0x10008, 0, 8, 6],
        None,
    ),
    // a sum that 32 bits do not hold
    (
        [1, 0xffff_fffc, 0x10008, 8, 8, 6],
        [0, 0, 0, 0, 0, 0],
        Some((FaultKind::Segment, 88)),
    ),
];

#[test]
fn segments_share_no_byte(rt: HostRuntime) -> Result<(), Fail> {
    let code = [1, 0x94, 0x10000, 8, 8, 5];
    for &(second, third, want) in SECOND_AND_THIRD {
        let file = file_of(rt.alloc(), 0x10000, &[code, second, third], 0x9c)?;
        let found = judged(&rt, rt.alloc(), &file, 1);
        same_at(&rt, (second, third), found, bad(want));
    }
    Ok(())
}

#[test]
fn a_word_lies_in_one_segment(rt: HostRuntime) -> Result<(), Fail> {
    let headers = [[1, 0x74, 0x10000, 6, 6, 5], [1, 0x74, 0x10006, 6, 6, 5]];
    let file = file_of(rt.alloc(), 0x10000, &headers, 0x7a)?;
    let image = loaded(&rt, rt.alloc(), &file, 1)?;
    let word = Some(0xeeee_eeee);
    for (pc, found) in [
        (0x10000, word),
        (0x10002, word),
        (0x10003, None),
        (0x10005, None),
        (0x10006, word),
        (0x10008, word),
        (0x10009, None),
    ] {
        same_at(&rt, pc, image.code_word(pc), found);
    }
    Ok(())
}

/// How many bytes of memory a file has, or the fault.
fn measured(rt: &impl Abort, alloc: Global, file: &[u8], harts: u8) -> Result<usize, ImageFault> {
    Ok(loaded(rt, alloc, file, harts)?.bytes().len())
}

#[test]
fn memory_has_at_most_16_mib(rt: HostRuntime) -> Result<(), Fail> {
    let (most, wide) = (16_777_216, FaultKind::TooWide.at(28));
    for (memory, harts, want) in [
        (16_711_680, 1, Ok(most)),
        (16_711_681, 1, Err(wide.into())),
        (16_252_928, 8, Ok(most)),
        (16_252_929, 8, Err(wide.into())),
        (u32::MAX, 1, Err(wide.into())),
    ] {
        let headers = [[1, 0x54, 0x8000_0000, 4, memory, 5]];
        let file = file_of(rt.alloc(), 0x8000_0000, &headers, 0x58)?;
        let found = measured(&rt, rt.alloc(), &file, harts);
        same_at(&rt, (memory, harts), found, want);
    }
    Ok(())
}

/// A program that prints 'A' and a newline, which stand in a segment of their own.
const WORDS: [u32; 9] = [
    0x0010_0513,
    0x0000_1597,
    0xffc5_8593,
    0x0020_0613,
    0x0400_0893,
    0x0000_0073,
    0x0000_0513,
    0x05d0_0893,
    0x0000_0073,
];

/// Its file, as a script made it by the ELF specification. GNU readelf 2.40 reads two segments of type
/// LOAD in it: at 0x10000 of 0x24 bytes, flags R E, and at 0x11000 of 2 and 8 bytes, flags RW.
const BUILT_FILE: [u8; 154] = [
    0x7f, 0x45, 0x4c, 0x46, 0x01, 0x01, 0x01, 0x00, 0x00, 0x00, 0x00, 0x00, 0x00, 0x00, 0x00, 0x00,
    0x02, 0x00, 0xf3, 0x00, 0x01, 0x00, 0x00, 0x00, 0x00, 0x00, 0x01, 0x00, 0x34, 0x00, 0x00, 0x00,
    0x00, 0x00, 0x00, 0x00, 0x00, 0x00, 0x00, 0x00, 0x34, 0x00, 0x20, 0x00, 0x02, 0x00, 0x00, 0x00,
    0x00, 0x00, 0x00, 0x00, 0x01, 0x00, 0x00, 0x00, 0x74, 0x00, 0x00, 0x00, 0x00, 0x00, 0x01, 0x00,
    0x00, 0x00, 0x01, 0x00, 0x24, 0x00, 0x00, 0x00, 0x24, 0x00, 0x00, 0x00, 0x05, 0x00, 0x00, 0x00,
    0x04, 0x00, 0x00, 0x00, 0x01, 0x00, 0x00, 0x00, 0x98, 0x00, 0x00, 0x00, 0x00, 0x10, 0x01, 0x00,
    0x00, 0x10, 0x01, 0x00, 0x02, 0x00, 0x00, 0x00, 0x08, 0x00, 0x00, 0x00, 0x06, 0x00, 0x00, 0x00,
    0x04, 0x00, 0x00, 0x00, 0x13, 0x05, 0x10, 0x00, 0x97, 0x15, 0x00, 0x00, 0x93, 0x85, 0xc5, 0xff,
    0x13, 0x06, 0x20, 0x00, 0x93, 0x08, 0x00, 0x04, 0x73, 0x00, 0x00, 0x00, 0x13, 0x05, 0x00, 0x00,
    0x93, 0x08, 0xd0, 0x05, 0x73, 0x00, 0x00, 0x00, 0x41, 0x0a,
];

#[test]
fn a_built_program_is_written_and_loaded(rt: HostRuntime) -> Result<(), Fail> {
    let built = Built {
        base: 0x10000,
        words: WORDS.to_vec(rt.alloc())?,
        bytes: b"A\n".to_vec(rt.alloc())?,
        zeros: 6,
        entry: 0x10000,
    };
    let file = write_image(rt.alloc(), &built).ok().ok_or("no memory")?;
    same(&rt, file.as_slice(), BUILT_FILE.as_slice());
    let image = loaded(&rt, rt.alloc(), &file, 8)?;
    same(
        &rt,
        (image.base(), image.entry(), image.bytes().len()),
        (0x10000, 0x10000, 0x91040 - 0x10000),
    );
    let words = (image.code_word(0x10020), image.code_word(0x11000));
    let data = image.bytes().get(0x1000..0x1003);
    same(
        &rt,
        (words, data),
        ((Some(0x0000_0073), None), Some(b"A\n\0".as_slice())),
    );
    Ok(())
}
