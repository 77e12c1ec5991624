// Where the parts of a written object stand, and the headers that say so.
ghost use Rattle.std.specs.Prelude.{◌≡◌, ◌+◌, ◌*◌, ◌/◌, ◌^◌, ◌<◌};
ghost use Rattle.elf_file.specs.Layout.{file_length, places_of, section_headers as headers_of};

/// Where the text stands: behind the file header, at the next multiple of 16.
pub(crate) const TEXT_AT: u32 = 64;

/// How many bytes a relocation, a symbol, the names of the sections, a section header and the section table have.
pub(crate) const RELOC_SIZE: u32 = 8;

pub(crate) const SYMBOL_SIZE: u32 = 16;

pub(crate) const NAMES_SIZE: u32 = 84;

pub(crate) const TABLE_SIZE: u32 = 440;

/// How many sections a written object has.
pub(crate) const SECTIONS: u32 = 11;

// Section types and flags (gABI, chapter 4, sections).
const SHT_NULL: u32 = 0;

const SHT_PROGBITS: u32 = 1;

const SHT_SYMTAB: u32 = 2;

const SHT_STRTAB: u32 = 3;

const SHT_NOBITS: u32 = 8;

const SHT_REL: u32 = 9;

const TEXT: u32 = 6; // SHF_ALLOC and SHF_EXECINSTR

const FIXED: u32 = 2; // SHF_ALLOC

const HELD: u32 = 3; // SHF_ALLOC and SHF_WRITE

/// How long the parts of an object are: the contents of the sections 1 to 4 in bytes, how many relocations change each
/// of the sections 1 to 3, how many symbols there are with entry 0, the number of the first symbol that is not local,
/// and how many bytes the string table has.
#[derive(Clone, Copy)]
pub(crate) struct Sizes {
    pub text: u32,
    pub fixed: u32,
    pub held: u32,
    pub zeros: u32,
    pub text_relocs: u32,
    pub fixed_relocs: u32,
    pub held_relocs: u32,
    pub symbols: u32,
    pub locals: u32,
    pub strings: u32,
}

/// Where the contents of the sections stand that do not stand at a fixed place, and where the section headers do.
#[derive(Clone, Copy)]
pub(crate) struct Places {
    pub fixed: u32,
    pub held: u32,
    pub zeros: u32,
    pub fixed_relocs: u32,
    pub held_relocs: u32,
    pub symbols: u32,
    pub strings: u32,
    pub names: u32,
    pub headers: u32,
}

// The next multiple of 4.
fn aligned(place: u32) -> u32
    requires { place + 3 < 2 ^ 32 }
    ensures { result ≡ (place + 3) / 4 * 4 }
{
    (place + 3) / 4 * 4
}

impl Places {
    /// The places in the file of an object with these sizes, which has fewer than 2^32 bytes.
    pub(crate) fn of(sizes: Sizes) -> Places
        requires { file_length sizes < 2 ^ 32 }
        ensures { result ≡ places_of sizes }
    {
        let fixed = aligned(TEXT_AT + sizes.text);
        let held = aligned(fixed + sizes.fixed);
        let zeros = aligned(held + sizes.held);
        let fixed_relocs = zeros + RELOC_SIZE * sizes.text_relocs;
        let held_relocs = fixed_relocs + RELOC_SIZE * sizes.fixed_relocs;
        let symbols = held_relocs + RELOC_SIZE * sizes.held_relocs;
        let strings = symbols + SYMBOL_SIZE * sizes.symbols;
        let names = strings + sizes.strings;
        Places {
            fixed,
            held,
            zeros,
            fixed_relocs,
            held_relocs,
            symbols,
            strings,
            names,
            headers: aligned(names + NAMES_SIZE),
        }
    }
}

/// A section header: `sh_name`, `sh_type`, `sh_flags`, `sh_addr`, `sh_offset`, `sh_size`, `sh_link`, `sh_info`,
/// `sh_addralign` and `sh_entsize`.
pub(crate) type SectionHeader = [u32; 10];

/// The section headers of the file of an object with these sizes.
pub(crate) fn section_headers(sizes: Sizes) -> [SectionHeader; 11]
    requires { file_length sizes < 2 ^ 32 }
    ensures { result ≡ headers_of sizes }
{
    let at = Places::of(sizes);
    let [text, fixed, held, zeros] = [sizes.text, sizes.fixed, sizes.held, sizes.zeros];
    let text_relocs = RELOC_SIZE * sizes.text_relocs;
    let fixed_relocs = RELOC_SIZE * sizes.fixed_relocs;
    let held_relocs = RELOC_SIZE * sizes.held_relocs;
    let symbols = SYMBOL_SIZE * sizes.symbols;
    let locals = sizes.locals;
    [
        [0, SHT_NULL, 0, 0, 0, 0, 0, 0, 0, 0],
        [1, SHT_PROGBITS, TEXT, 0, TEXT_AT, text, 0, 0, 16, 0],
        [7, SHT_PROGBITS, FIXED, 0, at.fixed, fixed, 0, 0, 4, 0],
        [15, SHT_PROGBITS, HELD, 0, at.held, held, 0, 0, 4, 0],
        [21, SHT_NOBITS, HELD, 0, at.zeros, zeros, 0, 0, 4, 0],
        [26, SHT_REL, 0, 0, at.zeros, text_relocs, 8, 1, 4, 8],
        [36, SHT_REL, 0, 0, at.fixed_relocs, fixed_relocs, 8, 2, 4, 8],
        [48, SHT_REL, 0, 0, at.held_relocs, held_relocs, 8, 3, 4, 8],
        [58, SHT_SYMTAB, 0, 0, at.symbols, symbols, 9, locals, 4, 16],
        [66, SHT_STRTAB, 0, 0, at.strings, sizes.strings, 0, 0, 1, 0],
        [74, SHT_STRTAB, 0, 0, at.names, NAMES_SIZE, 0, 0, 1, 0],
    ]
}

/// How many bytes the file of an object with these sizes has.
pub(crate) fn length_of(sizes: Sizes) -> u64
    ensures { result ≡ file_length sizes }
{
    let fixed = wide_aligned(TEXT_AT as u64 + u64::from(sizes.text));
    let held = wide_aligned(fixed + u64::from(sizes.fixed));
    let zeros = wide_aligned(held + u64::from(sizes.held));
    let relocs = u64::from(sizes.text_relocs)
        + u64::from(sizes.fixed_relocs)
        + u64::from(sizes.held_relocs);
    let symbols = zeros + RELOC_SIZE as u64 * relocs;
    let strings = symbols + SYMBOL_SIZE as u64 * u64::from(sizes.symbols);
    let names = strings + u64::from(sizes.strings);
    wide_aligned(names + NAMES_SIZE as u64) + TABLE_SIZE as u64
}

// The next multiple of 4.
fn wide_aligned(place: u64) -> u64
    requires { place < 2 ^ 63 }
    ensures { result ≡ (place + 3) / 4 * 4 }
{
    (place + 3) / 4 * 4
}
