// The records of the stamps. What a stamp does not read is as in `universal`.
use rules::Record;

pub fn universal() -> Record {
    Record {
        year: 2000,
        month: 1,
        day: 1,
        hour: 0,
        minute: 0,
        second: 0,
        nanoseconds: 0,
        day_of_week: 0,
        day_of_year: 1,
        to_int: 0,
        is_utc: true,
        utc_offset: 0,
    }
}

pub fn year_minus_one() -> Record {
    Record {
        year: -1,
        day: 5,
        ..universal()
    }
}

pub fn nine_hours() -> Record {
    Record {
        is_utc: false,
        utc_offset: 32400,
        ..universal()
    }
}

pub fn end_of_2024() -> Record {
    Record {
        year: 2024,
        day_of_week: 1,
        day_of_year: 365,
        ..universal()
    }
}

pub fn start_of_2021() -> Record {
    Record {
        year: 2021,
        day_of_week: 0,
        day_of_year: 3,
        ..universal()
    }
}

pub fn february() -> Record {
    Record {
        year: 2024,
        month: 2,
        day: 29,
        ..universal()
    }
}

pub fn at_second(second: u8) -> Record {
    Record {
        second,
        ..universal()
    }
}
