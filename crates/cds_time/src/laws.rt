// What holds of every time, its octets, and the Unix time that it is of.

ghost use Rattle.cds_time.specs.Octets.{OctetsGiveFields, FieldsGiveOctets};
ghost use Rattle.cds_time.specs.Unix.{UnixTimeByFields};

/// Octets, 8 or 10 of them, give fields that fit, and those have the same octets.
pub fn octets_give_fields()
    ensures { OctetsGiveFields }
{}

/// Fields that fit give octets, which give the fields again.
pub fn fields_give_octets()
    ensures { FieldsGiveOctets }
{}

/// The time of a Unix time has the days since 1970 and 4,383 more, and the milliseconds and
/// microseconds that are left of the day.
pub fn unix_time_by_fields()
    ensures { UnixTimeByFields }
{}
