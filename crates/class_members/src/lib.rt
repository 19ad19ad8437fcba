// What a class file yields: specs/, which the reader's contract and the theorems cite, and the type of what the reader answers.
#![tactic(auto)]

ghost use Rattle.std.specs.Prelude.{◌≡◌, [], ◌∷◌};

// Of an accepted file: the lengths of the class's and the parent's name (0 for none), the class's flags, how many fields and methods it has, and
// how many text bytes.
#[derive(Clone, Copy)]
pub struct FileHead {
    pub name: u32,
    pub parent: u32,
    pub flags: u32,
    pub fields: u32,
    pub methods: u32,
    pub text: u32,
}

impl FileHead {
    // Its six words, in the order in which a caller gets them.
    pub fn words(self) -> [u32; 6]
        ensures { result ≡ self.name ∷ self.parent ∷ self.flags ∷ self.fields ∷ self.methods ∷ self.text ∷ [] }
    {
        [
            self.name,
            self.parent,
            self.flags,
            self.fields,
            self.methods,
            self.text,
        ]
    }
}
