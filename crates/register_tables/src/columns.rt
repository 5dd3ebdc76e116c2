//! The columns of the tables. No other code names all of a table's: the statements that make a table
//! or take a whole row are put together from these lists.

/// A text with the columns of a table past its key, which stand here in their order: `listed` has
/// their names with commas between them, `defined` has their types too, and `given` has a parameter
/// of each name beside the names. Of the tables of names at keys the key is all that there is.
#[macro_export]
macro_rules! columns {
    (meta $form:ident $($part:literal),+) => {
        $crate::columns!(@$form [$($part),+] version INTEGER, latest INTEGER, key_count INTEGER)
    };
    (keys $form:ident $($part:literal),+) => {
        $crate::columns!(
            @$form [$($part),+]
            kind INTEGER, owner TEXT, purpose TEXT, state INTEGER, initial INTEGER,
            activation INTEGER, protect_stop INTEGER, deactivation INTEGER, destroyed INTEGER,
            compromised INTEGER, occurrence INTEGER
        )
    };
    (names $form:ident $($part:literal),+) => {
        $crate::columns!(@$form [$($part),+] key_no INTEGER, name TEXT)
    };
    (request $form:ident $($part:literal),+) => {
        $crate::columns!(@$form [$($part),+] command TEXT, key_no INTEGER, state INTEGER, moment INTEGER)
    };
    (period $form:ident $($part:literal),+) => {
        $crate::columns!(@$form [$($part),+] originator INTEGER, recipient INTEGER)
    };
    (quorum $form:ident $($part:literal),+) => {
        $crate::columns!(@$form [$($part),+] need INTEGER)
    };
    (
        @listed [$before:literal, $after:literal]
        $name:ident $kind:ident $(, $more:ident $its:ident)*
    ) => {
        concat!($before, stringify!($name) $(, ", ", stringify!($more))*, $after)
    };
    (
        @defined [$before:literal, $after:literal]
        $name:ident $kind:ident $(, $more:ident $its:ident)*
    ) => {
        concat!(
            $before,
            stringify!($name), " ", stringify!($kind), " NOT NULL"
            $(, ", ", stringify!($more), " ", stringify!($its), " NOT NULL")*,
            $after
        )
    };
    (
        @given [$before:literal, $between:literal, $after:literal] $($name:ident $kind:ident),+
    ) => {
        concat!(
            $before,
            $(", ", stringify!($name),)+
            $between,
            $(", :", stringify!($name),)+
            $after
        )
    };
}

/// The places of the cells that a search for whole rows of `keys` shows: its columns in their order,
/// and the number after them.
#[derive(Clone, Copy)]
pub enum KeyCell {
    Kind,
    Owner,
    Purpose,
    State,
    Initial,
    Activation,
    ProtectStop,
    Deactivation,
    Destroyed,
    Compromised,
    Occurrence,
    Number,
}

/// The cells of the table meta.
#[derive(Clone, Copy)]
pub enum MetaCell {
    Id,
    Version,
    Latest,
    KeyCount,
}

/// The cells of the tables of names at keys.
#[derive(Clone, Copy)]
pub enum NameCell {
    Key,
    Name,
}

/// The cells of the table of requests: what is kept of one, and then whose it is.
#[derive(Clone, Copy)]
pub enum RequestCell {
    Command,
    Key,
    State,
    Moment,
    Caller,
    Number,
}
