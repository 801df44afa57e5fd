// The limits of the object manager that code tests, each in this one place. docs/prover/definitions.md lists them with their definitions.

/// The most bytes of a name, an identifier, a key, a word or a string: what one component of a path
/// may have on common systems, so that each name can be a file's.
pub const WORD_LIMIT: usize = 255;

/// The most bytes of a source text, of an output and of a body: 16 MiB, so that a few texts in memory
/// at once, as a put needs, stay small beside the memory of a machine, and a batch small beside a store.
pub const BODY_LIMIT: usize = 16_777_216;

/// The most bytes of an expression.
pub const EXPRESSION_LIMIT: usize = 1_000;

/// The most bytes of a line that is a command.
pub const COMMAND_LIMIT: usize = 1_024;

/// The most bytes of a graph file.
pub const GRAPH_LIMIT: usize = 1_048_576;

/// The most declarations of a graph file, so that a table with an entry for each two types stays small.
pub const DECLARATION_LIMIT: u32 = 2_000;

/// The most units of a load session.
pub const UNIT_LIMIT: u32 = 2_000;

/// The number of an element is below this.
pub const ELEMENT_BOUND: u64 = 4_294_967_296;

/// The most lines of a reference list that aren't passed over.
pub const REFERENCE_LIMIT: usize = 10_000;

/// The most messages of an object, and the most lines of `warnings` that count: beyond so many nobody
/// reads on, and each object that takes them over would hold them too.
pub const MESSAGE_LIMIT: usize = 1_000;

/// The most bytes that count of a line of `warnings`.
pub const MESSAGE_LENGTH: usize = 1_000;

/// The greatest height of a node that is derived. It bounds the depth of the walk, which calls itself
/// once for each height, and so its stack.
pub const HEIGHT_LIMIT: usize = 64;

/// The most bytes of a store file: 1 GiB, so that the offset of a record fits into 32 bits with room
/// to spare, and a file can be read whole at an opening.
pub const STORE_LIMIT: u64 = 1_073_741_824;

/// The most bytes of the input of a run.
pub const INPUT_LIMIT: usize = 1_073_741_824;
