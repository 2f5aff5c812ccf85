// The types of geometries and columns in words. A number that is no type has none.
use kinds::column_type::{ColumnType, NoColumnType};
use kinds::geometry_type::{GeometryType, NoGeometryType};

pub fn type_name(kind: u8) -> &'static str {
    match GeometryType::try_from(kind) {
        Ok(GeometryType::Unknown) => "Unknown",
        Ok(GeometryType::Point) => "Point",
        Ok(GeometryType::LineString) => "LineString",
        Ok(GeometryType::Polygon) => "Polygon",
        Ok(GeometryType::MultiPoint) => "MultiPoint",
        Ok(GeometryType::MultiLineString) => "MultiLineString",
        Ok(GeometryType::MultiPolygon) => "MultiPolygon",
        Ok(GeometryType::GeometryCollection) => "GeometryCollection",
        Ok(GeometryType::CircularString) => "CircularString",
        Ok(GeometryType::CompoundCurve) => "CompoundCurve",
        Ok(GeometryType::CurvePolygon) => "CurvePolygon",
        Ok(GeometryType::MultiCurve) => "MultiCurve",
        Ok(GeometryType::MultiSurface) => "MultiSurface",
        Ok(GeometryType::Curve) => "Curve",
        Ok(GeometryType::Surface) => "Surface",
        Ok(GeometryType::PolyhedralSurface) => "PolyhedralSurface",
        Ok(GeometryType::Tin) => "TIN",
        Ok(GeometryType::Triangle) => "Triangle",
        Err(NoGeometryType) => "",
    }
}

// What a geometry of a type is a row of: the word for one of them, and for any other number.
fn content_names(kind: u8) -> (&'static str, &'static str) {
    let Ok(kind) = GeometryType::try_from(kind) else {
        return ("", "");
    };
    match kind {
        GeometryType::Unknown | GeometryType::GeometryCollection => ("geometry", "geometries"),
        GeometryType::Point
        | GeometryType::LineString
        | GeometryType::MultiPoint
        | GeometryType::CircularString
        | GeometryType::Curve => ("pair", "pairs"),
        GeometryType::Polygon
        | GeometryType::CurvePolygon
        | GeometryType::Surface
        | GeometryType::Triangle => ("ring", "rings"),
        GeometryType::MultiLineString => ("line", "lines"),
        GeometryType::MultiPolygon | GeometryType::PolyhedralSurface => ("polygon", "polygons"),
        GeometryType::CompoundCurve | GeometryType::MultiCurve => ("curve", "curves"),
        GeometryType::MultiSurface => ("surface", "surfaces"),
        GeometryType::Tin => ("triangle", "triangles"),
    }
}

pub fn content_name(kind: u8, size: u32) -> &'static str {
    let (one, many) = content_names(kind);
    if size == 1 { one } else { many }
}

pub fn column_type_name(kind: u8) -> &'static str {
    match ColumnType::try_from(kind) {
        Ok(ColumnType::Byte) => "Byte",
        Ok(ColumnType::UByte) => "UByte",
        Ok(ColumnType::Bool) => "Bool",
        Ok(ColumnType::Short) => "Short",
        Ok(ColumnType::UShort) => "UShort",
        Ok(ColumnType::Int) => "Int",
        Ok(ColumnType::UInt) => "UInt",
        Ok(ColumnType::Long) => "Long",
        Ok(ColumnType::ULong) => "ULong",
        Ok(ColumnType::Float) => "Float",
        Ok(ColumnType::Double) => "Double",
        Ok(ColumnType::String) => "String",
        Ok(ColumnType::Json) => "Json",
        Ok(ColumnType::DateTime) => "DateTime",
        Ok(ColumnType::Binary) => "Binary",
        Err(NoColumnType) => "",
    }
}
