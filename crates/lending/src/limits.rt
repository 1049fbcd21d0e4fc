/// Resources and holders are numbers from 1 to this.
pub const HIGHEST_NAME: u16 = 999;

/// The last day; days begin with 0.
pub const LAST_DAY: u16 = 9999;

/// The due day of a first lease, which never comes.
pub const NEVER_DUE: u16 = 10000;

/// How many leases an office numbers, from 1 on.
pub const MOST_NUMBERS: u16 = 60000;

/// How many rows a ledger uses, if it is lent as many.
pub const MOST_ROWS: usize = 1024;
