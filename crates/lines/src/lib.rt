// The lines of the listing, put into lent bytes.
#![tactic(auto)]

ghost use Rattle.std.specs.Prelude.{◌≡◌, ◌+◌, ◌<◌, ◌≤◌, ◌∷◌, [], ◌++◌};
ghost use Rattle.class_sheet.specs.ClassSheet.{text_of, text_length, text_limit};
ghost use Rattle.abi_sheet.specs.AbiSheet.{abi_text_of, abi_text_length, abi_text_limit};
ghost use Rattle.linking.specs.Sheets.{of_sheets, of_numbers};
ghost use Rattle.linking.specs.Signature.{by_numbers};
ghost use Rattle.linking.specs.Vtable.{table_entries};
ghost use Rattle.reading.specs.Tables.{entry, entries};
ghost use Rattle.lines.specs.Bytes.{decimal};
ghost use Rattle.lines.specs.Out.{Puts, standing};
ghost use Rattle.lines.specs.Lines.{shown, column, class_line, slot_line, refused, class_refused, sheet_refused, own_slot, fixed_slot, slot_name, slot_descriptor, entry_line, slot_texts, lines_of, is_unlisted, class_lines_by};

use linking::Sheets;
use reading::{TABLE_LIMIT, Table};
use text::Signature;

// A part of a text as a line shows it: a dash where it is empty.
fn shown(part: &[u8]) -> &[u8]
    ensures { result.now ≡ shown part.now }
{
    if part.is_empty() { b"-" } else { part }
}

// Lent bytes that text is put into, from their start on, and the place that it has come to. Nothing is put past their end.
#[derive(Drop)]
pub struct Out<'a> {
    pub bytes: &'a mut [u8],
    pub at: usize,
}

impl<'a> Out<'a> {
    // Lent bytes that nothing is put into yet.
    pub fn new(bytes: &'a mut [u8]) -> Out<'a>
        ensures lent { standing result ≡ (bytes.old, 0) }
        ensures same_reference { result.bytes.ghost_name ≡ bytes.entry.ghost_name }
    {
        Out { bytes, at: 0 }
    }

    // Puts a byte, if there is room.
    fn put_byte(&mut self, b: u8)
        ensures { Puts self.old self.new (b ∷ []) }
    {
        if self.at < self.bytes.len() {
            self.bytes[self.at] = b;
            self.at += 1;
        }
    }

    // Puts bytes, as many as there is room for.
    pub fn put(&mut self, bytes: &[u8])
        ensures { Puts self.old self.new bytes.now }
    {
        for b in bytes {
            self.put_byte(*b);
        }
    }

    // Puts a number in decimal.
    fn put_decimal(&mut self, n: u32)
        ensures { Puts self.old self.new (decimal n) }
    {
        if n >= 10 {
            self.put_decimal(n / 10);
        }
        self.put_byte(b'0' + (n % 10) as u8);
    }

    // Puts a blank and a part of a text.
    fn put_column(&mut self, part: &[u8])
        ensures { Puts self.old self.new (column part.now) }
    {
        self.put(b" ");
        self.put(shown(part));
    }

    // Puts a word and a number.
    pub fn put_numbered(&mut self, label: &[u8], n: u32)
        ensures { Puts self.old self.new (label.now ++ decimal n) }
    {
        self.put(label);
        self.put_decimal(n);
    }

    // Puts `class N NAME words W slots S`.
    fn put_class_line(&mut self, c: u32, name: &[u8], words: u32, slots: u32)
        ensures { Puts self.old self.new (class_line c name.now words slots) }
    {
        self.put_numbered(b"class ", c);
        self.put(b" ");
        self.put(name);
        self.put_numbered(b" words ", words);
        self.put_numbered(b" slots ", slots);
        self.put(b"\n");
    }

    // Puts `I NAME DESCRIPTOR TARGET CLASS`, a dash for each empty part.
    fn put_slot_line(&mut self, i: u32, signature: Signature, target: u32, class: u32)
        ensures { Puts self.old self.new (slot_line i signature.entry.name.now signature.entry.descriptor.now target class) }
    {
        self.put_decimal(i);
        self.put_column(signature.name);
        self.put_column(signature.descriptor);
        self.put_numbered(b" ", target);
        self.put_numbered(b" ", class);
        self.put(b"\n");
    }

    // Puts ` refused R`, a line's end.
    fn put_refused(&mut self, row: u32)
        ensures { Puts self.old self.new (refused row) }
    {
        self.put_numbered(b" refused ", row);
        self.put(b"\n");
    }

    // Puts `class N refused R`.
    pub fn put_class_refused(&mut self, c: u32, row: u32)
        ensures { Puts self.old self.new (class_refused c row) }
    {
        self.put_numbered(b"class ", c);
        self.put_refused(row);
    }

    // Puts `SHEET refused R`.
    pub fn put_sheet_refused(&mut self, sheet: &[u8], row: u32)
        ensures { Puts self.old self.new (sheet_refused sheet.now row) }
    {
        self.put(sheet);
        self.put_refused(row);
    }
}

// The slot record that class c's ABI entry has for index i.
fn own_slot(sheets: Sheets, i: u32, c: u32) -> Option<u32>
    ensures { result ≡ of_sheets own_slot sheets.entry i c }
{
    abi::class_slot(sheets, i, c)
}

// The same of the nearest class of c's chain that has one.
fn fixed_slot(sheets: Sheets, c: u32, i: u32) -> Option<u32>
    ensures { result ≡ of_sheets fixed_slot sheets.entry c i }
{
    if c == 0 {
        return None;
    }
    match own_slot(sheets, i, c) {
        Some(s) => Some(s),
        None => fixed_slot(sheets, chain::parent_of(sheets.set, c), i),
    }
}

// The name and the descriptor of slot i of class c's table: those of its method, in the class text, or of the fixed slot, in the ABI text; empty where
// there is neither.
fn slot_signature<'a>(sheets: Sheets<'a>, c: u32, i: u32, slot: reading::Slot) -> Signature<'a>
    ensures name { result.name.now ≡ of_sheets slot_name sheets.entry c i ((entry slot).method) }
    ensures descriptor { result.descriptor.now ≡ of_sheets slot_descriptor sheets.entry c i ((entry slot).method) }
{
    match slot.method() {
        Some(m) => class_sheet::method_signature(sheets.set, sheets.text, m),
        None => match fixed_slot(sheets, c, i) {
            Some(s) => abi_sheet::slot_signature(sheets.abi, sheets.labels, s),
            None => Signature {
                name: b"",
                descriptor: b"",
            },
        },
    }
}

// A table's slot with its index, and the class that declares its method.
#[derive(Clone, Copy)]
struct Slot {
    index: u32,
    slot: reading::Slot,
    class: u32,
}

// Puts the line of a slot of class c's table.
fn list_slot(sheets: Sheets, c: u32, s: Slot, out: &mut Out)
    ensures { Puts out.old out.new (of_sheets entry_line sheets.entry c s.index (entry s.slot) s.class) }
{
    let signature = slot_signature(sheets, c, s.index, s.slot);
    out.put_slot_line(s.index, signature, s.slot.word, s.class);
}

// Puts the lines of class c's slots, each as Reading finds it.
fn list_slots(sheets: Sheets, area: &[u32], c: u32, out: &mut Out)
    ensures { Puts out.old out.new (of_numbers slot_texts sheets.entry c 0 (of_numbers table_entries sheets.entry area.now c)) }
{
    let mut table = Table::for_reading();
    let mut classes = [0u32; TABLE_LIMIT];
    reading::table_entries(sheets, area, c, &mut table, &mut classes);
    for i in 0..table.len {
        let s = Slot {
            index: i,
            slot: table.slot(i),
            class: words::get_or(&classes, i as usize, 0),
        };
        list_slot(sheets, c, s, out);
    }
}

// Puts class c's lines, with the sheets' texts unpacked.
fn list_with(sheets: Sheets, area: &[u32], c: u32, out: &mut Out)
    ensures { Puts out.old out.new (of_numbers lines_of sheets.entry area.now c) }
{
    let name = class_sheet::class_name(sheets.set, sheets.text, c);
    let words = class_sheet::class_instance_words(sheets.set, c);
    let slots = class_sheet::class_slot_count(sheets.set, c);
    out.put_class_line(c, name, words, slots);
    list_slots(sheets, area, c, out);
}

// Unpacks the texts, and puts class c's lines.
fn list_unpacked(ws: &[u32], abi: &[u32], numbers: &[u32], area: &[u32], c: u32, out: &mut Out)
    requires { (text_length ws.now ≤ text_limit) × (abi_text_length abi.now ≤ abi_text_limit) }
    ensures { Puts out.old out.new (lines_of (by_numbers numbers.now) ws.now (text_of ws.now) abi.now (abi_text_of abi.now) area.now c) }
{
    let mut room = [0u8; class_sheet::TEXT_LIMIT as usize];
    let mut label_room = [0u8; abi_sheet::TEXT_LIMIT as usize];
    let sheets = Sheets::unpack(ws, abi, numbers, &mut room, &mut label_room);
    list_with(sheets, area, c, out);
}

// Whether class c has no lines: there is no such class, or row 3 refuses the number of classes or a text.
fn is_unlisted(ws: &[u32], abi: &[u32], c: u32) -> bool
    ensures { result ≡ is_unlisted ws.now abi.now c }
{
    let classes = class_sheet::class_count(ws);
    let text = class_sheet::text_length(ws);
    let labels = abi_sheet::text_length(abi);
    (c == 0)
        | (classes < c)
        | (class_sheet::CLASS_LIMIT < classes)
        | (class_sheet::TEXT_LIMIT < text)
        | (abi_sheet::TEXT_LIMIT < labels)
}

// Puts the lines of the linked class c, none where it is unlisted. So a chain that is gone through has at most 64 classes. Signatures are matched
// by the numbers of the list.
pub fn list_class(ws: &[u32], abi: &[u32], numbers: &[u32], area: &[u32], c: u32, out: &mut Out)
    ensures { Puts out.old out.new (class_lines_by (by_numbers numbers.now) ws.now abi.now area.now c) }
{
    if !is_unlisted(ws, abi, c) {
        list_unpacked(ws, abi, numbers, area, c, out);
    }
}
