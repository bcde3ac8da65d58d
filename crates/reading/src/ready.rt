// A card as the readers take it, and one that has been accepted: whoever reads many texts under one card checks it once.
ghost use Rattle.std.specs.Prelude.{◌≡◌};
ghost use Rattle.rules.specs.NumbersHandedBack.{got};
ghost use Rattle.rules.specs.SettingsAsWords.{settings_of, card_of};
ghost use Rattle.rules.specs.SettingsAndUnitTable.{settings_check, card_check};
ghost use Rattle.settings.specs.Sets.{bytes_of};
ghost use Rattle.lookup.specs.Searching.{Beside};
ghost use Rattle.steps.specs.Numerals.{Sayable};
ghost use Rattle.steps.specs.Units.{Readable, stops_of};

use lookup::both_tables::UnitTables;
use settings::sets::AsciiSet;
use steps::unit::stops;

// What a part is read under: a card as it is lent, with the index beside each unit table, and the bytes before which a unit's name ends: they depend on
// the settings alone, so that they are made once and not for each part.
#[derive(Clone, Copy)]
pub struct ReadyCard<'a> {
    pub settings: &'a [u64; 25],
    pub units: UnitTables<'a, 'a>,
    pub numerals: &'a [u8],
    pub stops: AsciiSet,
    pub ghost settings_accepted: { settings_check (settings_of settings.now) ≡ got tt },
    pub ghost readable: { Readable units.hall.now × Readable units.line.now },
    pub ghost sayable: { Sayable numerals.now },
    pub ghost stopped: { bytes_of stops ≡ stops_of (settings_of settings.now) },
}

// An accepted card, made ready.
#[derive(Clone, Copy)]
pub struct AcceptedCard<'a> {
    pub ready: ReadyCard<'a>,
    pub ghost accepted: { card_check (card_of ready.settings.now ready.units.hall.now ready.units.line.now ready.numerals.now) ≡ got tt },
}

impl<'a> AcceptedCard<'a> {
    ghost use Rattle.reading.specs.Meant.{meant};

    // With an index beside each unit table, empty or right.
    pub fn with_indexes(
        settings: &'a [u64; 25],
        hall: &'a [u8],
        hall_index: &'a [u8],
        line: &'a [u8],
        line_index: &'a [u8],
        numerals: &'a [u8],
    ) -> AcceptedCard<'a>
        requires accepted { card_check (card_of settings.now hall.now line.now numerals.now) ≡ got tt }
        requires beside { Beside hall.now hall_index.now × Beside line.now line_index.now }
        ensures { meant result.ready ≡ card_of settings.now hall.now line.now numerals.now }
    {
        let ready = ReadyCard {
            settings,
            units: UnitTables {
                hall,
                hall_index,
                line,
                line_index,
            },
            numerals,
            stops: stops(settings),
        };
        AcceptedCard { ready }
    }

    // Most cards have no index.
    pub fn without_indexes(
        settings: &'a [u64; 25],
        hall: &'a [u8],
        line: &'a [u8],
        numerals: &'a [u8],
    ) -> AcceptedCard<'a>
        requires { card_check (card_of settings.now hall.now line.now numerals.now) ≡ got tt }
        ensures { meant result.ready ≡ card_of settings.now hall.now line.now numerals.now }
    {
        AcceptedCard::with_indexes(settings, hall, b"", line, b"", numerals)
    }
}
