// What a row of each table says. Numbers are rows of other tables; a block's number counts within its function.
// They stay numbers, and no references or boxes: the tables are lent as the host wrote them, and nothing is built of them on a heap.
use tables::parts::Part;

// A part of the word bytes.
#[derive(Clone, Copy)]
pub struct Word {
    pub bytes: Part,
}

// The shape is the word of the `shape_id` of the identifier's function type.
#[derive(Clone, Copy)]
pub struct Identifier {
    pub named: bool,
    pub use_ref: bool,
    pub shape: Option<u32>,
}

// The span is the host's own number, only carried.
#[derive(Clone, Copy)]
pub struct Place {
    pub identifier: u32,
    pub span: Option<u32>,
    pub spread: bool,
}

#[derive(Clone, Copy)]
pub struct Function {
    pub params: Part,
    pub blocks: Part,
}

#[derive(Clone, Copy)]
pub struct BasicBlock {
    pub phis: Part,
    pub instructions: Part,
    pub terminal: Terminal,
    // The terminal's operands, places.
    pub operands: Part,
}

#[derive(Clone, Copy)]
pub enum Terminal {
    Other,
    Branch {
        test: u32,
        consequent: u32,
        fallthrough: u32,
    },
    Optional {
        optional: bool,
        test: u32,
        fallthrough: u32,
    },
    LogicalOrTernary {
        test: u32,
    },
    Sequence {
        block: u32,
    },
    MaybeThrow {
        continuation: u32,
    },
}

#[derive(Clone, Copy)]
pub struct Phi {
    pub identifier: u32,
    pub operands: Part,
}

#[derive(Clone, Copy)]
pub struct InstructionRow {
    pub result: u32,
    pub span: Option<u32>,
    pub instruction: Instruction,
}

#[derive(Clone, Copy)]
pub enum Instruction {
    LoadGlobal {
        name: u32,
        binding: u32,
    },
    LoadLocal {
        place: u32,
    },
    DeclareLocal {
        place: u32,
    },
    DeclareContext {
        place: u32,
    },
    StoreLocal {
        target: u32,
        value: u32,
        reassign: bool,
    },
    StoreContext {
        target: u32,
        value: u32,
        reassign: bool,
    },
    Destructure {
        value: u32,
        reassign: bool,
        pattern: Part,
    },
    // Without a property it is a load by a number.
    PropertyLoad {
        object: u32,
        property: Option<u32>,
    },
    FunctionExpression {
        function: u32,
    },
    StartMemoize {
        memo_id: u32,
        span: Option<u32>,
        declared: Part,
    },
    FinishMemoize {
        memo_id: u32,
        decl: u32,
    },
    ArrayExpression {
        elements: Part,
    },
    // The operands are the callee and then the arguments.
    CallExpression {
        callee: u32,
        operands: Part,
    },
    // The operands are the receiver and then the arguments.
    MethodCall {
        property: u32,
        operands: Part,
    },
    Other {
        lvalues: Part,
        operands: Part,
    },
}

// An identifier, or the word of a global's name.
#[derive(Clone, Copy)]
pub enum ManualMemoDependencyRoot {
    NamedLocal(u32),
    Global(u32),
}

// A dependency that the author declared; its path is a part of the steps.
#[derive(Clone, Copy)]
pub struct ManualMemoDependency {
    pub root: ManualMemoDependencyRoot,
    pub path: Part,
}

#[derive(Clone, Copy)]
pub struct Step {
    pub property: u32,
    pub optional: bool,
}
