// What a call answers in place of a length or a number. None of these is the length of anything in memory.

/// It is done, or it is there.
pub const DONE: usize = 0;

/// There is none: no reply to a quiet line, no such file, no such number, no clean position.
pub const NONE: usize = usize::MAX;

/// The editor is closed.
pub const CLOSED: usize = usize::MAX - 1;

/// No memory is left for it, and all is as it was.
pub const NO_MEMORY: usize = usize::MAX - 2;

/// The undo limit is above the greatest, or no layout, no dialect, or no kind of files, has the number.
pub const TOO_GREAT: usize = usize::MAX - 3;

/// No line can spell that name of a file.
pub const BAD_NAME: usize = usize::MAX - 4;

// Why nothing is set aside or put back: the numbers of `tiled_maps::Fault`, but for `Memory`.

/// The bytes are no JSON.
pub const NOT_JSON: usize = usize::MAX - 5;

/// A member has the name `roskevad`.
pub const NAME_TAKEN: usize = usize::MAX - 6;

/// The text that would be given nests too deep.
pub const TOO_DEEP: usize = usize::MAX - 7;

/// A chunk of an infinite map is not sound.
pub const BAD_CHUNK: usize = usize::MAX - 8;

/// Two chunks of a layer overlap.
pub const OVERLAP: usize = usize::MAX - 9;

/// Made finite, the layers would have too many cells.
pub const TOO_LARGE: usize = usize::MAX - 10;

/// Made finite, the map would not come back as it was.
pub const UNLIKE: usize = usize::MAX - 11;

/// The map has too many fractions.
pub const TOO_MANY_FRACTIONS: usize = usize::MAX - 12;

// Why a map in XML is not read, or not written: the numbers of `tmx_maps::Fault`, but for `Memory` and `NotJson`.

/// The bytes begin as XML, and are none that is read.
pub const NOT_XML: usize = usize::MAX - 13;

/// The XML is no map, or no tileset, that is read.
pub const NOT_A_TMX: usize = usize::MAX - 14;

/// The map has what XML can't say.
pub const NO_TMX: usize = usize::MAX - 15;

// Each is the number that `include/roskevad.h` gives it, which is fixed for callers that are built already.
const _: () = prove!(DONE == 0);

const _: () = prove!(NONE == 18_446_744_073_709_551_615);

const _: () = prove!(CLOSED == 18_446_744_073_709_551_614);

const _: () = prove!(NO_MEMORY == 18_446_744_073_709_551_613);

const _: () = prove!(TOO_GREAT == 18_446_744_073_709_551_612);

const _: () = prove!(BAD_NAME == 18_446_744_073_709_551_611);

const _: () = prove!(NOT_JSON == 18_446_744_073_709_551_610);

const _: () = prove!(NAME_TAKEN == 18_446_744_073_709_551_609);

const _: () = prove!(TOO_DEEP == 18_446_744_073_709_551_608);

const _: () = prove!(BAD_CHUNK == 18_446_744_073_709_551_607);

const _: () = prove!(OVERLAP == 18_446_744_073_709_551_606);

const _: () = prove!(TOO_LARGE == 18_446_744_073_709_551_605);

const _: () = prove!(UNLIKE == 18_446_744_073_709_551_604);

const _: () = prove!(TOO_MANY_FRACTIONS == 18_446_744_073_709_551_603);

const _: () = prove!(NOT_XML == 18_446_744_073_709_551_602);

const _: () = prove!(NOT_A_TMX == 18_446_744_073_709_551_601);

const _: () = prove!(NO_TMX == 18_446_744_073_709_551_600);
