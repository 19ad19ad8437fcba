// The definitions of linking: specs/, which the linker's contracts and the theorems cite, and three types, of their answer and of the
// sheets that they are about.
#![tactic(auto)]

ghost use Rattle.std.specs.Prelude.{◌≡◌, ◌≤◌};
ghost use Rattle.class_sheet.specs.ClassSheet.{text_limit, text_length, text_of};
ghost use Rattle.abi_sheet.specs.AbiSheet.{abi_text_limit, abi_text_length, abi_text_of};

// A method and the class that declares it, both by number: what a search along a class's chain finds.
#[derive(Clone, Copy)]
pub struct Declared {
    pub class: u32,
    pub method: u32,
}

// The two sheets of a link or an ask, as words, with their texts unpacked: the class words and their text, the ABI words and theirs; and the list
// of numbers by which signatures are matched.
#[derive(Clone, Copy)]
pub struct Sheets<'a> {
    pub set: &'a [u32],
    pub text: &'a [u8],
    pub abi: &'a [u32],
    pub labels: &'a [u8],
    pub numbers: &'a [u32],
}

// What a call that writes the class words is lent besides them: their text as bytes, the ABI words and their text.
#[derive(Clone, Copy)]
pub struct Lent<'a> {
    pub text: &'a [u8],
    pub abi: &'a [u32],
    pub labels: &'a [u8],
}

impl<'a> Sheets<'a> {
    // The sheets of these words, with their texts unpacked into bytes that have room for any, and this list of numbers.
    pub fn unpack(
        set: &'a [u32],
        abi: &'a [u32],
        numbers: &'a [u32],
        room: &'a mut [u8; class_sheet::TEXT_LIMIT as usize],
        label_room: &'a mut [u8; abi_sheet::TEXT_LIMIT as usize],
    ) -> Sheets<'a>
        ensures words { (result.set.now ≡ set.now) × (result.abi.now ≡ abi.now) }
        ensures numbers { result.numbers.now ≡ numbers.now }
        ensures text { text_length set.now ≤ text_limit → result.text.now ≡ text_of set.now }
        ensures labels { abi_text_length abi.now ≤ abi_text_limit → result.labels.now ≡ abi_text_of abi.now }
    {
        Sheets {
            set,
            text: class_sheet::text_bytes(set, room),
            abi,
            labels: abi_sheet::text_bytes(abi, label_room),
            numbers,
        }
    }
}
