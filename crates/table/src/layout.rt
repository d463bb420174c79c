// Where everything lies in the work buffer, as specs/Layout lays it out.

// The sheet's counts: rows, forms, where main's instructions begin, how many they are, and the devices.
pub const ROW_COUNT_AT: usize = 0;

pub const FORM_COUNT_AT: usize = 1;

pub const MAIN_START_AT: usize = 2;

pub const MAIN_COUNT_AT: usize = 3;

pub const DEVICE_COUNT_AT: usize = 4;

// The forms of the devices.
pub const DEVICES: usize = 5;

// 64 rows: kind, number of members, two to spare, and 8 members.
pub const ROWS: usize = 16;

pub const ROW_SIZE: usize = 36;

pub const MEMBERS: usize = 4;

pub const MEMBER_SIZE: usize = 4;

// 64 forms: row, number of kept values, number of parts, 8 kept rows, and 8 parts.
pub const FORMS: usize = 2320;

pub const FORM_SIZE: usize = 36;

pub const KEEPS: usize = 3;

pub const PARTS: usize = 11;

pub const PART_SIZE: usize = 3;

// 1,024 instructions: the operation's code, how many numbers, and 9 numbers.
pub const INSTRS: usize = 4624;

pub const INSTR_SIZE: usize = 11;

pub const NUMBERS: usize = 2;

pub const NUMBER_COUNT: usize = 9;

pub const POOL_SIZE: usize = 1024;

// 64 times 64 answers of fit; in a run the places of each form's members, by name.
pub const FITS: usize = 15888;

pub const FITS_OF_ROW: usize = 64;

// The rows of a body's 64 slots.
pub const SLOT_ROWS: usize = 19984;

// 256 objects: form, 8 kept values, 8 fields.
pub const OBJECTS: usize = 20048;

pub const OBJECT_SIZE: usize = 17;

pub const KEPT: usize = 1;

pub const FIELDS: usize = 9;

// 64 frames: receiver, how many slots are filled, next instruction, end of the code, and 44 slots.
pub const FRAMES: usize = 24400;

pub const FRAME_SIZE: usize = 48;

pub const SLOTS: usize = 4;

pub const SLOT_COUNT: usize = 44;

// 256 marks of objects.
pub const MARKS: usize = 27472;

pub const MARK_COUNT: usize = 256;

// The notes of the slots that a code names, and those of each form.
pub const CODE_NOTES: usize = 27728;

pub const FORM_NOTES: usize = 27772;

// How many numbers of the buffer are used.
pub const WORK_SIZE: usize = 32768;
