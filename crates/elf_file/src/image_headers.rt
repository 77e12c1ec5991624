// The headers of an image: what is the same in each file, and the numbers that differ.
ghost use Rattle.std.specs.Prelude.{◌≡◌, ◌≤◌, [], ◌∷◌};
ghost use Rattle.elf_file.specs.ImageNumbers.{program_words as words_of, contents_at as place_of_contents};

use crate::image::FILE_ADDRESS;

/// `e_ident` (ELF, 32 bits, the low byte first, version 1), `e_type` 2 (ET_EXEC) and `e_machine` 3 (EM_386).
pub(crate) const IDENT: &[u8; 20] = b"\x7fELF\x01\x01\x01\0\0\0\0\0\0\0\0\0\x02\0\x03\0";

/// `e_ehsize` 52, `e_phentsize` 32, `e_phnum` 1, and nothing of sections.
pub(crate) const COUNTS: &[u8; 12] = b"\x34\0\x20\0\x01\0\0\0\0\0\0\0";

/// How many bytes the file header has, and how many both headers have.
pub(crate) const FILE_HEADER: u32 = 52;

pub(crate) const HEADERS: u32 = 84;

/// PT_LOAD, the type of a segment that is loaded.
const LOAD: u32 = 1;

/// The alignment of a segment: a page.
const PAGE: u32 = 4096;

/// What the headers of an image say: `e_entry`, and of its segment `p_vaddr`, `p_filesz`, `p_memsz` and `p_flags`.
#[derive(Clone, Copy)]
pub(crate) struct Numbers {
    pub entry: u32,
    pub start: u32,
    pub file_size: u32,
    pub size: u32,
    pub flags: u32,
}

/// The words of the file header behind `e_machine`: `e_version`, `e_entry`, `e_phoff`, `e_shoff` and `e_flags`.
pub(crate) fn header_words(numbers: Numbers) -> [u32; 5]
    ensures { result ≡ 1 ∷ numbers.entry ∷ 52 ∷ 0 ∷ 0 ∷ [] }
{
    [1, numbers.entry, FILE_HEADER, 0, 0]
}

/// The program header.
pub(crate) fn program_words(numbers: Numbers) -> [u32; 8]
    requires { FILE_ADDRESS ≤ numbers.start }
    ensures { result ≡ words_of numbers }
{
    let start = numbers.start;
    [
        LOAD,
        start - FILE_ADDRESS,
        start,
        start,
        numbers.file_size,
        numbers.size,
        numbers.flags,
        PAGE,
    ]
}

/// Where the segment's bytes stand in the file. Where there are none, that is the end of the headers.
pub(crate) fn contents_at(numbers: Numbers) -> u32
    requires { FILE_ADDRESS ≤ numbers.start }
    ensures { result ≡ place_of_contents numbers }
{
    if numbers.file_size == 0 {
        HEADERS
    } else {
        numbers.start - FILE_ADDRESS
    }
}
