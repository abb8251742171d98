// The tables that are walked.
use script::Record;

fn node(kind: u8, a: u16, v: i32) -> Record {
    Record { kind, a, v }
}

// return i + step (); where step adds 10 to the global i, which is 1, and returns it.
pub fn variable_then_call() -> [Record; 12] {
    [
        node(27, 2, 0),
        node(24, 0, 1),
        node(25, 0, 0),
        node(19, 0, 0),
        node(6, 0, 0),
        node(3, 0, 0),
        node(2, 0, 0),
        node(1, 0, 10),
        node(19, 0, 0),
        node(3, 0, 0),
        node(2, 0, 0),
        node(7, 0, 0),
    ]
}

// return less (i = i + 1, i = i + 2); where the global i is 1, and less takes its second parameter from its first.
pub fn arguments_in_order() -> [Record; 19] {
    [
        node(27, 2, 0),
        node(24, 0, 1),
        node(25, 0, 2),
        node(26, 1, 0),
        node(26, 2, 0),
        node(19, 0, 0),
        node(4, 0, 0),
        node(2, 1, 0),
        node(2, 2, 0),
        node(19, 0, 0),
        node(7, 0, 2),
        node(6, 0, 0),
        node(3, 0, 0),
        node(2, 0, 0),
        node(1, 0, 1),
        node(6, 0, 0),
        node(3, 0, 0),
        node(2, 0, 0),
        node(1, 0, 2),
    ]
}

// { int x = 7; { int y = 5; } return x; }
pub fn block_in_block() -> [Record; 7] {
    [
        node(27, 0, 0),
        node(20, 1, 2),
        node(24, 0, 7),
        node(20, 1, 0),
        node(24, 1, 5),
        node(19, 0, 0),
        node(2, 0, 0),
    ]
}

// { bay[0] = -2147483648; return bay[0]; }
pub fn least_word_in_bay() -> [Record; 9] {
    [
        node(27, 0, 0),
        node(20, 0, 2),
        node(16, 0, 0),
        node(9, 0, 0),
        node(1, 0, 0),
        node(1, 0, i32::MIN),
        node(19, 0, 0),
        node(8, 0, 0),
        node(1, 0, 0),
    ]
}

// int seven () 7; return seven ();
pub fn call_without_return() -> [Record; 6] {
    [
        node(27, 1, 0),
        node(25, 0, 0),
        node(16, 0, 0),
        node(1, 0, 7),
        node(19, 0, 0),
        node(7, 0, 0),
    ]
}

// A statement with a number that has a name too.
pub fn named_number() -> [Record; 3] {
    [node(27, 0, 0), node(16, 0, 0), node(1, 1, 0)]
}

// A number after the program's end.
pub fn number_left_over() -> [Record; 4] {
    [node(27, 0, 0), node(16, 0, 0), node(1, 0, 0), node(1, 0, 0)]
}

// Global 7 twice.
pub fn global_twice() -> [Record; 5] {
    [
        node(27, 2, 0),
        node(24, 7, 0),
        node(24, 7, 0),
        node(16, 0, 0),
        node(1, 0, 0),
    ]
}

// A variable that is not declared.
pub fn undeclared_variable() -> [Record; 3] {
    [node(27, 0, 0), node(16, 0, 0), node(2, 9, 0)]
}

// A call with an argument, of a function without parameters.
pub fn argument_too_many() -> [Record; 7] {
    [
        node(27, 1, 0),
        node(25, 0, 0),
        node(16, 0, 0),
        node(1, 0, 0),
        node(16, 0, 0),
        node(7, 0, 1),
        node(1, 0, 0),
    ]
}

// A block of 63 locals that holds a block of 38: a frame of 101 words. Each local has its record's index as its name.
pub fn large_frame() -> [Record; 104] {
    let mut table = [node(24, 0, 0); 104];
    let mut name = 0;
    for record in &mut table {
        record.a = name;
        name = name.saturating_add(1);
    }
    table[0] = node(27, 0, 0);
    table[1] = node(20, 63, 1);
    table[65] = node(20, 38, 0);
    table
}
