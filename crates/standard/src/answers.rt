// A refusal's number, and the structs that C has, each of what a call of the libraries gives. A struct has fields of its own, and so an
// impl of its own.
ghost use Rattle.standard.specs.Answers.{refusal_number, bytes8, bytes10, bytes15, bytes16, authentication_answer, identity_answer, unsealed_answer};
ghost use Rattle.standard.specs.Answers.{unsealed_numbered_answer, unsealed_group_answer, value_answer, cell_answer, carrier_identity_answer, card_answer};
ghost use Rattle.standard.specs.Answers.{ring_made_answer, book_answer, counted_answer, tally_answer};
ghost use Rattle.std.specs.Prelude.{◌≡◌};

use crate::{
    Authentication, BookAnswer, Bytes8, Bytes10, Bytes15, Bytes16, Card, CarrierFields,
    CarrierIdentity, Cell, CellFields, Changes, CountedAnswer, CountedRefusal, CountedWritten,
    Identity, Opened, OpenedNumbered, RING, Refusal, RefusedAt, ResponseAndKey, RestoredCard,
    RingAndResponses, RingMade, Tally, Unsealed, UnsealedGroup, UnsealedNumbered, Value, Written,
};

impl From<Refusal> for u32 {
    ghost from_gives = { λ refusal n. n ≡ refusal_number refusal };

    fn from(refusal: Refusal) -> u32 {
        match refusal {
            Refusal::BookTooLong => 1,
            Refusal::BookNotWhole => 2,
            Refusal::WrongKind => 3,
            Refusal::NotZero => 4,
            Refusal::WrongNumber => 5,
            Refusal::FlagSet => 6,
            Refusal::WrongMask => 7,
            Refusal::SharedBit => 8,
            Refusal::WrongWidth => 9,
            Refusal::ValueWide => 10,
            Refusal::WrongLength => 11,
            Refusal::OutputShort => 12,
            Refusal::WrongSides => 13,
            Refusal::WrongFilling => 14,
            Refusal::WrongParent => 15,
            Refusal::ParentLength => 16,
            Refusal::NoInput => 17,
            Refusal::GroupUnreadable => 18,
            Refusal::GroupDisagrees => 19,
        }
    }
}

// A list that is refused before any of its records.
impl From<Refusal> for RefusedAt {
    ghost from_gives = { λ refusal at. at ≡ record { refusal = refusal; index = 0 } };

    fn from(refusal: Refusal) -> RefusedAt {
        RefusedAt { refusal, index: 0 }
    }
}

impl From<Refusal> for CountedRefusal {
    ghost from_gives = { λ refusal at. at ≡ record { refusal = refusal; index = 0; runs = 0 } };

    fn from(refusal: Refusal) -> CountedRefusal {
        CountedRefusal {
            refusal,
            index: 0,
            runs: 0,
        }
    }
}

impl From<Result<[u8; 8], Refusal>> for Bytes8 {
    ghost from_gives = { λ given answer. answer ≡ bytes8 given };

    fn from(given: Result<[u8; 8], Refusal>) -> Bytes8 {
        match given {
            Ok(bytes) => Bytes8 { refusal: 0, bytes },
            Err(refusal) => Bytes8 {
                refusal: refusal.into(),
                bytes: [0; 8],
            },
        }
    }
}

impl From<Result<[u8; 10], Refusal>> for Bytes10 {
    ghost from_gives = { λ given answer. answer ≡ bytes10 given };

    fn from(given: Result<[u8; 10], Refusal>) -> Bytes10 {
        match given {
            Ok(bytes) => Bytes10 { refusal: 0, bytes },
            Err(refusal) => Bytes10 {
                refusal: refusal.into(),
                bytes: [0; 10],
            },
        }
    }
}

impl From<Result<[u8; 15], Refusal>> for Bytes15 {
    ghost from_gives = { λ given answer. answer ≡ bytes15 given };

    fn from(given: Result<[u8; 15], Refusal>) -> Bytes15 {
        match given {
            Ok(bytes) => Bytes15 { refusal: 0, bytes },
            Err(refusal) => Bytes15 {
                refusal: refusal.into(),
                bytes: [0; 15],
            },
        }
    }
}

impl From<Result<[u8; 16], Refusal>> for Bytes16 {
    ghost from_gives = { λ given answer. answer ≡ bytes16 given };

    fn from(given: Result<[u8; 16], Refusal>) -> Bytes16 {
        match given {
            Ok(bytes) => Bytes16 { refusal: 0, bytes },
            Err(refusal) => Bytes16 {
                refusal: refusal.into(),
                bytes: [0; 16],
            },
        }
    }
}

impl From<Result<ResponseAndKey, Refusal>> for Authentication {
    ghost from_gives = { λ given answer. answer ≡ authentication_answer given };

    fn from(given: Result<ResponseAndKey, Refusal>) -> Authentication {
        match given {
            Ok(chosen) => {
                let response = chosen.response;
                let key = chosen.key;
                Authentication {
                    refusal: 0,
                    response,
                    key,
                }
            }
            Err(refusal) => Authentication {
                refusal: refusal.into(),
                response: [0; 4],
                key: [0; 10],
            },
        }
    }
}

impl From<Result<u32, Refusal>> for Identity {
    ghost from_gives = { λ given answer. answer ≡ identity_answer given };

    fn from(given: Result<u32, Refusal>) -> Identity {
        match given {
            Ok(identity) => Identity {
                refusal: 0,
                identity,
            },
            Err(refusal) => Identity {
                refusal: refusal.into(),
                identity: 0,
            },
        }
    }
}

impl From<Result<Opened<10>, Refusal>> for Unsealed {
    ghost from_gives = { λ given answer. answer ≡ unsealed_answer given };

    fn from(given: Result<Opened<10>, Refusal>) -> Unsealed {
        match given {
            Ok(opened) => {
                let key = opened.key;
                Unsealed {
                    refusal: 0,
                    key,
                    failed_checks: opened.failed_checks,
                }
            }
            Err(refusal) => Unsealed {
                refusal: refusal.into(),
                key: [0; 10],
                failed_checks: 0,
            },
        }
    }
}

impl From<Result<OpenedNumbered, Refusal>> for UnsealedNumbered {
    ghost from_gives = { λ given answer. answer ≡ unsealed_numbered_answer given };

    fn from(given: Result<OpenedNumbered, Refusal>) -> UnsealedNumbered {
        match given {
            Ok(opened) => {
                let key = opened.key;
                UnsealedNumbered {
                    refusal: 0,
                    key,
                    number: opened.number,
                    failed_checks: opened.failed_checks,
                }
            }
            Err(refusal) => UnsealedNumbered {
                refusal: refusal.into(),
                key: [0; 10],
                number: 0,
                failed_checks: 0,
            },
        }
    }
}

impl From<Result<Opened<12>, Refusal>> for UnsealedGroup {
    ghost from_gives = { λ given answer. answer ≡ unsealed_group_answer given };

    fn from(given: Result<Opened<12>, Refusal>) -> UnsealedGroup {
        match given {
            Ok(opened) => {
                let key = opened.key;
                UnsealedGroup {
                    refusal: 0,
                    key,
                    failed_checks: opened.failed_checks,
                }
            }
            Err(refusal) => UnsealedGroup {
                refusal: refusal.into(),
                key: [0; 12],
                failed_checks: 0,
            },
        }
    }
}

impl From<Result<u32, Refusal>> for Value {
    ghost from_gives = { λ given answer. answer ≡ value_answer given };

    fn from(given: Result<u32, Refusal>) -> Value {
        match given {
            Ok(value) => Value { refusal: 0, value },
            Err(refusal) => Value {
                refusal: refusal.into(),
                value: 0,
            },
        }
    }
}

impl From<Result<CellFields, Refusal>> for Cell {
    ghost from_gives = { λ given answer. answer ≡ cell_answer given };

    fn from(given: Result<CellFields, Refusal>) -> Cell {
        match given {
            Ok(
                CellFields {
                    location_area,
                    carrier,
                    colour_code,
                },
            ) => Cell {
                refusal: 0,
                location_area,
                carrier,
                colour_code,
            },
            Err(refusal) => Cell {
                refusal: refusal.into(),
                location_area: 0,
                carrier: 0,
                colour_code: 0,
            },
        }
    }
}

impl From<Result<CarrierFields, Refusal>> for CarrierIdentity {
    ghost from_gives = { λ given answer. answer ≡ carrier_identity_answer given };

    fn from(given: Result<CarrierFields, Refusal>) -> CarrierIdentity {
        match given {
            Ok(CarrierFields { carrier, identity }) => CarrierIdentity {
                refusal: 0,
                carrier,
                identity,
            },
            Err(refusal) => CarrierIdentity {
                refusal: refusal.into(),
                carrier: 0,
                identity: 0,
            },
        }
    }
}

impl From<Result<RestoredCard, Refusal>> for Card {
    ghost from_gives = { λ given answer. answer ≡ card_answer given };

    fn from(given: Result<RestoredCard, Refusal>) -> Card {
        match given {
            Ok(restored) => {
                let key = restored.key;
                let card = restored.card;
                Card {
                    refusal: 0,
                    key,
                    card,
                }
            }
            Err(refusal) => Card {
                refusal: refusal.into(),
                key: [0; 12],
                card: [0; 16],
            },
        }
    }
}

impl From<Result<RingAndResponses, Refusal>> for RingMade {
    ghost from_gives = { λ given answer. answer ≡ ring_made_answer given };

    fn from(given: Result<RingAndResponses, Refusal>) -> RingMade {
        match given {
            Ok(made) => {
                let ring = made.ring;
                let response1 = made.response1;
                let response2 = made.response2;
                RingMade {
                    refusal: 0,
                    ring,
                    response1,
                    response2,
                }
            }
            Err(refusal) => RingMade {
                refusal: refusal.into(),
                ring: [0; RING],
                response1: [0; 4],
                response2: [0; 4],
            },
        }
    }
}

impl From<Result<Changes, Refusal>> for Tally {
    ghost from_gives = { λ given answer. answer ≡ tally_answer given };

    fn from(given: Result<Changes, Refusal>) -> Tally {
        match given {
            Ok(
                Changes {
                    flips,
                    total,
                    least,
                    greatest,
                },
            ) => Tally {
                refusal: 0,
                flips,
                total,
                least,
                greatest,
            },
            Err(refusal) => Tally {
                refusal: refusal.into(),
                flips: 0,
                total: 0,
                least: 0,
                greatest: 0,
            },
        }
    }
}

impl From<Result<Written, RefusedAt>> for BookAnswer {
    ghost from_gives = { λ given answer. answer ≡ book_answer given };

    fn from(given: Result<Written, RefusedAt>) -> BookAnswer {
        match given {
            Ok(list) => BookAnswer {
                refusal: 0,
                index: list.records,
                written: list.bytes,
            },
            Err(at) => BookAnswer {
                refusal: at.refusal.into(),
                index: at.index,
                written: 0,
            },
        }
    }
}

impl From<Result<CountedWritten, CountedRefusal>> for CountedAnswer {
    ghost from_gives = { λ given answer. answer ≡ counted_answer given };

    fn from(given: Result<CountedWritten, CountedRefusal>) -> CountedAnswer {
        match given {
            Ok(book) => CountedAnswer {
                refusal: 0,
                index: book.records,
                written: book.bytes,
                runs: book.runs,
            },
            Err(at) => CountedAnswer {
                refusal: at.refusal.into(),
                index: at.index,
                written: 0,
                runs: at.runs,
            },
        }
    }
}
