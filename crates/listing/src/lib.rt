// The listing of the specification: both sheets are read, all classes are linked in number order, and then the lines go into lent bytes. They are the whole
// text where the place that they come to is below the number of bytes lent.
#![tactic(auto)]

ghost use Rattle.std.specs.Prelude.{◌≡◌, ◌≤◌, ◌<◌, length, map};
ghost use Rattle.class_sheet.specs.ClassSheet.{class_limit};
ghost use Rattle.set_rules.specs.SetRules.{set_refusal};
ghost use Rattle.lines.specs.Out.{Puts};
ghost use Rattle.listing.specs.Small.{Small, Accepts, Matched};
ghost use Rattle.listing.specs.Listing.{fresh_area, stub_words, link_row, links, link_all, class_text, class_texts, set_text, abi_line, classes_text, listing};

use lines::Out;
use refusal::Refusal;

// The most classes that a set has.
const CLASSES: usize = class_sheet::CLASS_LIMIT as usize;

// The words of the area, of the stubs, of the list of missing slots, 33 for each class, and of the list of numbers.
const AREA_WORDS: usize = 4096;

const STUB_WORDS: usize = 1024;

const MISSING_WORDS: usize = 33 * CLASSES;

const NUMBER_WORDS: usize = 1024;

// The words of a set, and the memory that its links write.
#[derive(Drop)]
struct Memory {
    set: [u32; class_sheet::SHEET_WORDS],
    area: [u32; AREA_WORDS],
    missing: [u32; MISSING_WORDS],
    numbers: [u32; NUMBER_WORDS],
}

// A fresh area.
#[tactic(auto, unfolding(crate::specs::Listing::fresh_area))]
fn fresh_area() -> [u32; AREA_WORDS]
    ensures { result ≡ fresh_area }
{
    let mut area = [0u32; AREA_WORDS];
    area[0] = 1;
    area
}

// The 1,024 stub words, each 4026531840 + index.
fn stub_words() -> [u32; STUB_WORDS]
    ensures { result ≡ stub_words }
{
    let mut stubs = [0u32; STUB_WORDS];
    for (i, stub) in stubs.iter_mut().enumerate() {
        *stub = 4026531840 + i as u32;
    }
    stubs
}

// Links as many classes as there are places for why one was refused, from class 1 on, each in what the link before it left.
fn link_classes(memory: &mut Memory, abi: &[u32], stubs: &[u32], refusals: &mut [Option<Refusal>])
    requires { (length refusals.old ≤ class_limit) × Matched memory.old.set abi.now memory.old.numbers }
    ensures linked { links (map link_row refusals.new) memory.new.set memory.new.area memory.new.missing
        ≡ link_all abi.now stubs.now (length refusals.old) 1 memory.old.set memory.old.area memory.old.missing }
    ensures matched { Matched memory.new.set abi.now memory.new.numbers }
{
    for (i, refusal) in refusals.iter_mut().enumerate() {
        let set = &mut memory.set;
        let answer = link::link(
            set,
            abi,
            &mut memory.numbers,
            i as u32 + 1,
            &mut memory.area,
            stubs,
            &mut memory.missing,
        );
        *refusal = answer.err();
    }
}

// Puts class c's lines, or the line of its refusal.
fn put_class(
    set: &[u32],
    abi: &[u32],
    numbers: &[u32],
    area: &[u32],
    c: u32,
    refusal: Option<Refusal>,
    out: &mut Out,
)
    requires { Matched set.now abi.now numbers.now }
    ensures { Puts out.old out.new (class_text set.now abi.now area.now c (link_row refusal)) }
{
    match refusal {
        None => lines::list_class(set, abi, numbers, area, c, out),
        Some(refusal) => out.put_class_refused(c, u32::from(refusal)),
    }
}

// Puts the text of each class from class 1 on, by why its link was refused. Each word that is read is below 2^32, as its type has it.
fn put_classes(
    set: &[u32],
    abi: &[u32],
    numbers: &[u32],
    area: &[u32],
    refusals: &[Option<Refusal>],
    out: &mut Out,
)
    requires { (length refusals.now ≤ class_limit) × Matched set.now abi.now numbers.now }
    ensures lines { Puts out.old out.new (class_texts set.now abi.now area.now 1 (map link_row refusals.now)) }
    ensures small { Small set.now × Small area.now }
{
    for (i, refusal) in refusals.iter().enumerate() {
        put_class(set, abi, numbers, area, i as u32 + 1, *refusal, out);
    }
}

// Fills the list of numbers, links all classes of a set, and then puts their lines.
fn list_set(set: [u32; class_sheet::SHEET_WORDS], abi: &[u32], out: &mut Out)
    requires { set_refusal set abi.now ≡ 0 }
    ensures lines { Puts out.old out.new (set_text set abi.now) }
    ensures longest { length (set_text set abi.now) ≤ 2192135 }
{
    let n = class_sheet::class_count(&set) as usize;
    let mut memory = Memory {
        set,
        area: fresh_area(),
        missing: [0; MISSING_WORDS],
        numbers: [0; NUMBER_WORDS],
    };
    // rows 3 to 5 accept the sheets, and the list is long enough
    let _ = signatures::number_signatures(&memory.set, abi, &mut memory.numbers);
    let mut refusals = [None; CLASSES];
    let refusals = &mut refusals[..n];
    link_classes(&mut memory, abi, &stub_words(), refusals);
    put_classes(
        &memory.set,
        abi,
        &memory.numbers,
        &memory.area,
        refusals,
        out,
    );
}

// Reads the class sheet, and puts the lines of its classes or of its refusal.
fn list_classes(abi: &[u32], classes: &[u8], out: &mut Out)
    requires { Accepts abi.now }
    ensures lines { Puts out.old out.new (classes_text abi.now classes.now) }
    ensures longest { length (classes_text abi.now classes.now) ≤ 2192135 }
{
    let mut set = [0; class_sheet::SHEET_WORDS];
    match sheet::read_class_sheet(classes, &mut set) {
        Ok(_) => list_set(set, abi, out),
        Err(refusal) => out.put_sheet_refused(b"classes", u32::from(refusal)),
    }
}

// Puts the line of a bad ABI sheet, and nothing for a good one.
pub fn abi_line(abi: &[u8], out: &mut Out)
    ensures { Puts out.old out.new (abi_line abi.now) }
{
    let mut lent = [0; abi_sheet::SHEET_WORDS];
    if let Err(refusal) = sheet::read_abi_sheet(abi, &mut lent) {
        out.put_sheet_refused(b"abi", u32::from(refusal));
    }
}

// Puts the listing of both sheets. Where 2,228,224 bytes are lent it is put whole: it has fewer (proofs/Longest.antt).
pub fn list(abi: &[u8], classes: &[u8], out: &mut Out)
    ensures lines { Puts out.old out.new (listing abi.now classes.now) }
    ensures longest { length (listing abi.now classes.now) < 2228224 }
{
    let mut lent = [0; abi_sheet::SHEET_WORDS];
    match sheet::read_abi_sheet(abi, &mut lent) {
        Ok(_) => list_classes(&lent, classes, out),
        Err(refusal) => out.put_sheet_refused(b"abi", u32::from(refusal)),
    }
}
